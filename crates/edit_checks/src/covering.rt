// What covers the tree below: whiteouts, opaque directories, and the directories that are copied up.
use crate::kit::{ASKED, KIT, sealed};
use crate::scripts::{ask, run, see_marks};
use base::Manifest;
use layers::layer::Layer;
use manifests::index::{blank_row, index};
use sessions::session::Session;
use std::process::Abort;
use std::test::Fail;
use trees::tree::Tree;

// What a session does, and the number of its rows and its marks afterwards.
type Stage<'a> = (&'a str, usize, &'a str);

// The stages over a tree, each on the layer that the one before it left.
fn stage_all<T: Tree>(
    rt: &(impl Abort + AllocGlobal),
    tree: &T,
    stages: &[Stage<'_>],
) -> Result<(), Fail> {
    let mut layer = Layer::new();
    for (script, rows, marks) in stages {
        let mut session = Session::lay(layer, tree);
        run(rt, &mut session, script)?;
        layer = session.seal().part().0;
        see_marks(rt, &layer, *rows, marks)?;
    }
    Ok(())
}

// A whiteout's name is not shown.
const REMOVED: Stage = (
    "\
remove etc/coin = done
next etc '' = trays
next etc coin = trays
next etc coim = trays
remove etc/trays/t1 = done
next etc/trays '' = none
room = 187
remove etc/trays = done
next etc '' = none
look etc/trays/t1 = t 10 2
put etc/trays/t1 file 600 1 c3 = t 10 2
room = 188",
    4,
    "\
'' = D 755
etc = D 755
etc/coin = W
etc/trays = W
etc/trays/t1 = N",
);

// A directory over a whiteout hides the old children. A file taken out below it leaves no whiteout.
const MADE_AGAIN: Stage = (
    "\
mkdir etc/trays 750 = done
next etc '' = trays
look etc/trays/t1 = t 10 3
next etc/trays '' = none
need etc/trays/t1 = 1
put etc/trays/t1 file 600 1 c3 = done
look etc/trays/t1 = file 600 1 c3
next etc/trays '' = t1
room = 187
remove etc/trays/t1 = done
look etc/trays/t1 = t 10 3
room = 188
chmod etc/trays 700 = done
look etc/trays = dir 700
look etc/trays/t1 = t 10 3
mkdir etc/coin 711 = done
look etc/coin = dir 711
room = 188",
    4,
    "\
'' = D 755
etc = D 755
etc/coin = O 711
etc/trays = O 700
etc/trays/t1 = N",
);

// A file over a whiteout.
const FILES: Stage = (
    "\
put etc/coin/x file 644 1 c4 = done
remove etc/coin = t 15 3
remove etc/coin/x = done
remove etc/coin = done
put etc/coin file 640 2 c5 = done
chmod etc/coin 600 = done
remove etc/trays = done
put etc/trays file 444 0 0 = done
look etc/trays/t1 = t 11 3
next etc/trays '' = t 11 3
next etc '' = coin
next etc coin = trays
room = 188",
    4,
    "\
etc/coin = F 600 2 c5
etc/coin/x = N
etc/trays = F 444 0 0
etc/trays/t1 = N",
);

// What the tree below has not leaves no whiteout, and is made anew as a plain directory.
const OWN: Stage = (
    "\
mkdir new 700 = done
mkdir new/in 700 = done
room = 186
remove new = t 15 2
remove new/in = done
remove new = done
room = 188
next '' etc = none
mkdir new 701 = done
next '' etc = new
room = 187",
    5,
    "\
new = D 701
new/in = N",
);

// A mode alone is changed: the rest of the file, and what is seen below, stay.
const MODES: Stage = (
    "\
chmod etc/coin 600 = done
room = 189
chmod etc/trays 700 = done
look etc/trays/t1 = file 644 5 b2
next etc/trays '' = t1
chmod '' 711 = done
chmod etc 1755 = done
room = 188",
    4,
    "\
'' = D 711
etc = D 1755
etc/coin = F 600 12 a1
etc/trays = D 700",
);

// Names of the layer and of the tree below, in order and each once.
const MERGED: Stage = (
    "\
put etc/z file 644 0 0 = done
put etc/a file 644 0 0 = done
put etc/d file 644 0 0 = done
next etc '' = a
next etc a = coin
next etc coin = d
next etc d = trays
next etc trays = z
next etc z = none
remove etc/coin = done
next etc a = d
remove etc/d = done
next etc a = trays
put etc/trays/s file 644 0 0 = done
put etc/trays/t1 file 600 1 c3 = done
next etc/trays '' = s
next etc/trays s = t1
next etc/trays t1 = none
room = 184",
    8,
    "\
etc/a = F 644 0 0
etc/coin = W
etc/d = N
etc/trays = D 755
etc/trays/t1 = F 600 1 c3
etc/z = F 644 0 0",
);

#[test]
fn covering(rt: HostRuntime) -> Result<(), Fail> {
    let mut rows = [blank_row(); 8];
    let count = index(KIT.as_bytes(), &mut rows)?;
    let tree = Manifest::read(KIT.as_bytes(), &rows[..count])?;
    stage_all(&rt, &tree, &[REMOVED, MADE_AGAIN, FILES, OWN])?;
    stage_all(&rt, &tree, &[MODES])?;
    stage_all(&rt, &tree, &[MERGED])?;
    ask(&rt, &tree, ASKED)
}

const OTHER_MODES: &str = "\
chmod '' 700 = done
chmod etc 711 = done
chmod etc/trays 1777 = done";

// Directories are copied up with the modes that they have in the tree below.
const COPIED: Stage = (
    "\
put etc/trays/t2 file 644 1 c3 = done
room = 188
next etc/trays '' = t1
next etc/trays t1 = t2
next etc/trays t2 = none
look etc = dir 711",
    4,
    "\
'' = D 700
etc = D 711
etc/trays = D 1777
etc/trays/t1 = N
etc/trays/t2 = F 644 1 c3",
);

#[test]
fn copied_up(rt: HostRuntime) -> Result<(), Fail> {
    let mut rows = [blank_row(); 8];
    let count = index(KIT.as_bytes(), &mut rows)?;
    let tree = Manifest::read(KIT.as_bytes(), &rows[..count])?;
    let pile = sealed(&rt, tree, OTHER_MODES)?;
    stage_all(&rt, &pile, &[COPIED])
}
