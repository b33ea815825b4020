// A layer that was parted from its tree, over other trees; and sealed piles.
use crate::kit::{KIT, NOTHING, ROOT, flat_kit, high_pile_kit, sealed};
use crate::scripts::{ask, run};
use base::Manifest;
use layers::layer::Layer;
use manifests::index::{blank_row, index};
use sessions::session::Session;
use std::process::Abort;
use std::test::Fail;
use trees::tree::Tree;

// Over a tree with the kit's entries.
const CHANGES: &str = "\
put etc/bill file 600 7 c3 = done
remove etc/coin = done
remove etc/trays/t1 = done
remove etc/trays = done
mkdir etc/trays 750 = done
put etc/trays/t2 file 640 9 c4 = done";

// The layer says each of these itself, or hides what is below: the same over any tree that has no more names in `etc`.
const CHANGED: &str = "\
look '' = dir 755
look etc = dir 755
look etc/bill = file 600 7 c3
look etc/coin = t 10 2
look etc/trays = dir 750
look etc/trays/t1 = t 10 3
look etc/trays/t2 = file 640 9 c4
next '' '' = etc
next '' etc = none
next etc '' = bill
next etc bill = trays
next etc trays = none
next etc/trays '' = t2
next etc/trays t2 = none
short etc '' = t 21 0";

// Edits over a sealed pile: its own file leaves a whiteout here, and its opaque directory is copied up plain.
const OVER: &str = "\
room = 192
remove etc/bill = done
room = 189
next etc '' = trays
put etc/trays/t1 file 644 5 b2 = done
room = 187
next etc/trays '' = t1
next etc/trays t1 = t2";

// The layer over a tree: in a session, and sealed. Gives the layer back.
fn lay_over<T: Tree + Drop>(
    rt: &(impl Abort + AllocGlobal),
    layer: Layer,
    tree: T,
) -> Result<Layer, Fail> {
    let session = Session::lay(layer, tree);
    ask(rt, &session, CHANGED)?;
    let pile = session.seal();
    ask(rt, &pile, CHANGED)?;
    run(rt, &mut Session::open(&pile), OVER)?;
    ask(rt, &pile, CHANGED)?;
    Ok(pile.part().0)
}

#[test]
fn laying(rt: HostRuntime) -> Result<(), Fail> {
    let mut rows = [blank_row(); 8];
    let count = index(KIT.as_bytes(), &mut rows)?;
    let tree = Manifest::read(KIT.as_bytes(), &rows[..count])?;
    let (layer, tree) = sealed(&rt, tree, CHANGES)?.part();
    let layer = lay_over(&rt, layer, tree)?;
    let layer = lay_over(&rt, layer, flat_kit(&rt)?)?;
    let mut rows = [blank_row(); 1];
    let count = index(ROOT.as_bytes(), &mut rows)?;
    let root = Manifest::read(ROOT.as_bytes(), &rows[..count])?;
    let layer = lay_over(&rt, layer, high_pile_kit(&rt, &root)?)?;
    let layer = lay_over(&rt, layer, root)?;
    let mut none = [blank_row(); 1];
    let count = index(NOTHING.as_bytes(), &mut none)?;
    lay_over(
        &rt,
        layer,
        Manifest::read(NOTHING.as_bytes(), &none[..count])?,
    )?;
    Ok(())
}
