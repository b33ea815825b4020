// The kit's worked session, over each kind of tree that has the kit's entries.
use crate::kit::{ASKED, KIT, ROOT, flat_kit, high_pile_kit, pile_kit};
use crate::scripts::{ask, run, see_marks};
use base::Manifest;
use manifests::index::{blank_row, index};
use sessions::session::Session;
use std::process::Abort;
use std::test::Fail;
use trees::tree::Tree;

const WORKED: &str = "\
look etc/coin = file 644 12 a1
look etc/coin/x = t 11 3
look etc/note/x = t 10 2
room = 192
need etc/coin = 3
put etc/coin file 644 14 a2 = done
look etc/coin = file 644 14 a2
room = 189
need etc/coin = 0
remove etc/coin = done
look etc/coin = t 10 2
room = 189
remove etc/trays = t 15 3
room = 189
need etc/trays/t1 = 2
remove etc/trays/t1 = done
room = 187
remove etc/trays = done
room = 188
mkdir etc/trays 750 = done
room = 188
look etc/trays = dir 750
look etc/trays/t1 = t 10 3
next etc '' = trays
next etc/trays '' = none";

const MARKS: &str = "\
'' = D 755
etc = D 755
etc/coin = W
etc/trays = O 750
etc/trays/t1 = N";

// The session over one tree, which it leaves as it was.
fn work<T: Tree + Drop>(rt: &(impl Abort + AllocGlobal), tree: T) -> Result<(), Fail> {
    ask(rt, &tree, ASKED)?;
    let mut session = Session::open(tree);
    run(rt, &mut session, WORKED)?;
    let (layer, tree) = session.seal().part();
    see_marks(rt, &layer, 4, MARKS)?;
    ask(rt, &tree, ASKED)
}

#[test]
fn worked(rt: HostRuntime) -> Result<(), Fail> {
    let mut rows = [blank_row(); 8];
    let count = index(KIT.as_bytes(), &mut rows)?;
    let tree = Manifest::read(KIT.as_bytes(), &rows[..count])?;
    work(&rt, &tree)?;
    work(&rt, tree)?;
    work(&rt, flat_kit(&rt)?)?;
    let mut rows = [blank_row(); 1];
    let count = index(ROOT.as_bytes(), &mut rows)?;
    let root = Manifest::read(ROOT.as_bytes(), &rows[..count])?;
    work(&rt, &pile_kit(&rt, &root)?)?;
    work(&rt, high_pile_kit(&rt, root)?)
}
