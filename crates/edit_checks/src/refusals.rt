// Each refusal of a question and of an edit, and the order of the checks.
use crate::kit::{ASKED, KIT, NOTHING, flat_kit};
use crate::scripts::{ask, run};
use base::Manifest;
use edits::editable::Editable;
use manifests::index::{blank_row, index};
use sessions::session::Session;
use std::process::Abort;
use std::test::Fail;

// Paths that are not good. Their fault comes before a value out of range.
const BAD_PATHS: &str = "\
look aaaaaaaaaaaaaaaaaaaaaaaaaaaaaaaaaaaaaaaaaaaaaaaaaaaaaaaaaaaaaaaaaaaaaaaaaaaaaaaaaaaaaaaaaaaaaaaaaaaaaaaaaaaaaaaaaaaaaaaaa = p 1 0
need aaaaaaaaaaaaaaaaaaaaaaaaaaaaaaaaaaaaaaaaaaaaaaaaaaaaaaaaaaaaaaaaaaaaaaaaaaaaaaaaaaaaaaaaaaaaaaaaaaaaaaaaaaaaaaaaaaaaaaaaa = p 1 0
put aaaaaaaaaaaaaaaaaaaaaaaaaaaaaaaaaaaaaaaaaaaaaaaaaaaaaaaaaaaaaaaaaaaaaaaaaaaaaaaaaaaaaaaaaaaaaaaaaaaaaaaaaaaaaaaaaaaaaaaaa file 644 0 0 = p 1 0
mkdir aaaaaaaaaaaaaaaaaaaaaaaaaaaaaaaaaaaaaaaaaaaaaaaaaaaaaaaaaaaaaaaaaaaaaaaaaaaaaaaaaaaaaaaaaaaaaaaaaaaaaaaaaaaaaaaaaaaaaaaaa 10000 = p 1 0
look etc/ = p 2 1
next /etc '' = p 2 0
short etc/.. '' = p 2 1
need etc/./coin = p 2 1
put etc/coin/.wh.x dir 755 = p 2 2
mkdir / 10000 = p 2 0
chmod etc//coin 10000 = p 2 1
remove .wh.etc = p 2 0
look a/a/a/a/a/a/a/a/a = p 3 8
need a/a/a/a/a/a/a/a/a = p 3 8
chmod a/a/a/a/a/a/a/a/a 755 = p 3 8
remove a/a/a/a/a/a/a/a/a = p 3 8";

// Values out of range, which come before the root, and that before what is there.
const BAD_VALUES: &str = "\
put etc/x file 10000 0 0 = t 17 0
put etc/x file 644 1099511627777 0 = t 17 0
put etc/x dir 755 = t 17 0
mkdir etc/x 10000 = t 17 0
chmod etc/coin 10000 = t 17 0
chmod var 10000 = t 17 0
put var/x dir 755 = t 17 0
put etc dir 755 = t 17 0
mkdir etc 10000 = t 17 0
put '' dir 755 = t 17 0
mkdir '' 10000 = t 17 0
chmod '' 10000 = t 17 0
put '' file 644 0 0 = t 16 0
mkdir '' 755 = t 16 0
remove '' = t 16 0";

// What is missing, and what is in the way.
const BAD_PLACES: &str = "\
look var = t 10 1
look etc/note/x = t 10 2
next etc/note '' = t 10 2
put var/x file 644 0 0 = t 10 1
put etc/note/x file 644 0 0 = t 10 2
mkdir etc/note/x 755 = t 10 2
mkdir etc/note/x/y/z 755 = t 10 2
chmod etc/note 755 = t 10 2
chmod etc/trays/t2 600 = t 10 3
remove etc/note = t 10 2
remove etc/trays/t2/x = t 10 3
look etc/coin/x/y = t 11 3
next etc/coin '' = t 11 3
next etc/coin/x '' = t 11 3
put etc/coin/x file 644 0 0 = t 11 3
put etc/trays/t1/x/y file 644 0 0 = t 11 4
mkdir etc/coin/x 755 = t 11 3
mkdir etc/coin/x/y 755 = t 11 3
chmod etc/coin/x 600 = t 11 3
remove etc/coin/x = t 11 3
put etc file 644 0 0 = t 12 2
put etc/trays file 644 0 0 = t 12 3
mkdir etc 755 = t 13 2
mkdir etc/coin 755 = t 13 3
mkdir etc/trays/t1 755 = t 13 4
remove etc = t 15 2
remove etc/trays = t 15 3
short etc '' = t 21 0
short etc trays = t 21 0
short etc/coin '' = t 11 3
short var '' = t 10 1";

// The bounds of the values, and the root's mode.
const GRANTED: &str = "\
put etc/x file 7777 1099511627776 ffffffffffffffff = done
look etc/x = file 7777 1099511627776 ffffffffffffffff
put etc/x file 0 0 0 = done
look etc/x = file 0 0 0
mkdir etc/y 7777 = done
chmod etc/y 0 = done
look etc/y = dir 0
chmod '' 7777 = done
look '' = dir 7777";

// What is refused leaves the entries and the room alone.
fn refuse_all<T: Editable + Drop>(
    rt: &(impl Abort + AllocGlobal),
    mut tree: T,
) -> Result<(), Fail> {
    let room = tree.room();
    run(rt, &mut tree, BAD_PATHS)?;
    run(rt, &mut tree, BAD_VALUES)?;
    run(rt, &mut tree, BAD_PLACES)?;
    assert_eq!(rt; tree.room(), room);
    ask(rt, &tree, ASKED)?;
    run(rt, &mut tree, GRANTED)
}

// A tree without a root: the root is refused before it is missed.
const WITHOUT_ROOT: &str = "\
look '' = t 10 0
next '' '' = t 10 0
put '' dir 755 = t 17 0
mkdir '' 10000 = t 17 0
chmod '' 10000 = t 17 0
put '' file 644 0 0 = t 16 0
mkdir '' 755 = t 16 0
remove '' = t 16 0
chmod '' 755 = t 10 0
put a file 644 0 0 = t 10 0
mkdir a 755 = t 10 0
chmod a 755 = t 10 0
remove a = t 10 0
need '' = 1
need a/b = 3
need a/b/ = p 2 2
room = 192";

#[test]
fn refusals(rt: HostRuntime) -> Result<(), Fail> {
    let mut rows = [blank_row(); 8];
    let count = index(KIT.as_bytes(), &mut rows)?;
    let tree = Manifest::read(KIT.as_bytes(), &rows[..count])?;
    refuse_all(&rt, Session::open(tree))?;
    refuse_all(&rt, Session::open(flat_kit(&rt)?))?;
    refuse_all(&rt, flat_kit(&rt)?)?;
    let mut none = [blank_row(); 1];
    let count = index(NOTHING.as_bytes(), &mut none)?;
    let tree = Manifest::read(NOTHING.as_bytes(), &none[..count])?;
    run(&rt, &mut Session::open(tree), WITHOUT_ROOT)
}
