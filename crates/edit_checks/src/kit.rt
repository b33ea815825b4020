// The tree of the kit: as a manifest, in a flat tree, and in piles.
use crate::scripts::run;
use flat::Flat;
use sessions::session::{Sealed, Session};
use std::process::Abort;
use std::test::Fail;
use trees::tree::Tree;

pub(crate) const KIT: &str =
    "#mtree\n. type=dir mode=0755\n./etc type=dir mode=0755\n./etc/coin type=file mode=0644 size=12 content=00000000000000a1\n./etc/trays type=dir mode=0755\n./etc/trays/t1 type=file mode=0644 size=5 content=00000000000000b2\n";

// The root alone.
pub(crate) const ROOT: &str = "#mtree\n. type=dir mode=0755\n";

// What every tree of the kit answers.
pub(crate) const ASKED: &str = "\
look '' = dir 755
look etc = dir 755
look etc/coin = file 644 12 a1
look etc/trays = dir 755
look etc/trays/t1 = file 644 5 b2
look etc/coin/x = t 11 3
look etc/note/x = t 10 2
next '' '' = etc
next '' etc = none
next etc '' = coin
next etc coin = trays
next etc trays = none
next etc/trays '' = t1
next etc/trays t1 = none";

// No entry at all.
pub(crate) const NOTHING: &str = "#mtree\n";

// Puts the kit's entries under a root.
const FURNISH: &str = "\
mkdir etc 755 = done
put etc/coin file 644 12 a1 = done
mkdir etc/trays 755 = done
put etc/trays/t1 file 644 5 b2 = done";

// Entries that are not the kit's, and the edits that make them so.
const OTHER: &str = "\
mkdir etc 700 = done
put etc/coin file 600 1 c3 = done
put etc/note file 600 1 c4 = done
mkdir etc/trays 755 = done";

const MEND: &str = "\
chmod etc 755 = done
put etc/coin file 644 12 a1 = done
remove etc/note = done
put etc/trays/t1 file 644 5 b2 = done";

pub(crate) fn flat_kit(rt: &(impl Abort + AllocGlobal)) -> Result<Flat, Fail> {
    let mut tree = Flat::new();
    run(rt, &mut tree, FURNISH)?;
    Ok(tree)
}

// A pile that a script makes over a tree.
pub(crate) fn sealed<T: Tree + Drop>(
    rt: &(impl Abort + AllocGlobal),
    tree: T,
    script: &str,
) -> Result<Sealed<T>, Fail> {
    let mut session = Session::open(tree);
    run(rt, &mut session, script)?;
    Ok(session.seal())
}

// A pile of one layer over a tree with the root alone.
pub(crate) fn pile_kit<T: Tree + Drop>(
    rt: &(impl Abort + AllocGlobal),
    root: T,
) -> Result<Sealed<T>, Fail> {
    sealed(rt, root, FURNISH)
}

// A pile of two layers over the same.
pub(crate) fn high_pile_kit<T: Tree + Drop>(
    rt: &(impl Abort + AllocGlobal),
    root: T,
) -> Result<Sealed<Sealed<T>>, Fail> {
    sealed(rt, sealed(rt, root, OTHER)?, MEND)
}
