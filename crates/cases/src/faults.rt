// The lines that refusals print: every fault of a tree, and every cause of a manifest's and of a layer file's.
use layer_fields::fault::{Cause as LayerCause, LayerFault};
use manifests::fault::ManifestFault;
use paths::PathFault;
use reports::refusal::{Reason, refusal};
use std::io;
use trees::fault::Fault;
use words::fault::Cause;

// The same as in the tests of `checks`, which have the lines beside them: a table for both would have to lie in a crate of
// the product.
const TREES: [Fault; 12] = [
    Fault::Path(PathFault::TooLong),
    Fault::Path(PathFault::BadName(7)),
    Fault::Path(PathFault::TooDeep),
    Fault::Missing(2),
    Fault::NotDirectory(3),
    Fault::IsDirectory(4),
    Fault::Exists(9),
    Fault::NotEmpty(1),
    Fault::Root,
    Fault::OutOfRange,
    Fault::NoRoom(8),
    Fault::ShortBuffer,
];

const MANIFESTS: [(usize, Cause); 9] = [
    (0, Cause::Header),
    (7, Cause::Word),
    (29, Cause::Path(PathFault::BadName(1))),
    (7, Cause::Keyword),
    (100, Cause::Value),
    (7, Cause::Order),
    (7, Cause::Parent),
    (65000, Cause::TooMany),
    (0, Cause::OtherRows),
];

const LAYERS: [(usize, LayerCause); 11] = [
    (0, LayerCause::Field),
    (0, LayerCause::Version),
    (13, LayerCause::Whiteout),
    (13, LayerCause::Path(PathFault::TooLong)),
    (13, LayerCause::Path(PathFault::BadName(1))),
    (13, LayerCause::Path(PathFault::TooDeep)),
    (29, LayerCause::Order),
    (29, LayerCause::Parent),
    (29, LayerCause::Value),
    (8000, LayerCause::TooMany),
    (65535, LayerCause::Count),
];

fn print_refusal(rt: &HostRuntime, subject: &str, reason: Reason) -> io::Result<()> {
    rt.print(refusal(rt.alloc(), subject, reason)?.as_str())
}

pub(crate) fn print_faults(rt: &HostRuntime) -> io::Result<()> {
    for fault in TREES {
        print_refusal(rt, "list", Reason::Tree(fault))?;
    }
    for (at, cause) in MANIFESTS {
        let fault = ManifestFault { at, cause };
        print_refusal(rt, "base.mtree", Reason::Manifest(fault))?;
    }
    Ok(())
}

// Of layer files. Apart from `print_faults`, so that a line `faults` prints what it always did.
pub(crate) fn print_layer_faults(rt: &HostRuntime) -> io::Result<()> {
    for (at, cause) in LAYERS {
        let fault = LayerFault { at, cause };
        print_refusal(rt, "top.lay", Reason::Layer(fault))?;
    }
    Ok(())
}
