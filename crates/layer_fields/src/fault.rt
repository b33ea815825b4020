// Why a layer file is refused, and where.
ghost use Rattle.std.specs.Prelude.{◌≡◌, Some};
ghost use Rattle.layer_fields.specs.declared.fault.Cause.TheVariants.{Path as Faulty};
ghost use Rattle.layer_fields.specs.Faults.{cause_fields, fields};

use paths::PathFault;
use std::error::Error;
use std::fmt;

#[derive(Clone, Copy, PartialEq, Eq, Debug)]
pub enum Cause {
    // A field is cut short, unknown, out of place or of the wrong length, or is missing.
    Field,
    // The version is not 1.
    Version,
    // What is whited out is no good path, or is the root.
    Whiteout,
    // The path is not good.
    Path(PathFault),
    // The path does not come after the one before it.
    Order,
    // No earlier directory is the path's parent.
    Parent,
    // A mode or a size is out of range, or the root is no directory.
    Value,
    // More rows than there may be.
    TooMany,
    // The count is not the number of rows, or bytes follow it.
    Count,
}

impl From<PathFault> for Cause {
    ghost from_gives = { λ e r. r ≡ Faulty e };

    fn from(fault: PathFault) -> Cause {
        Cause::Path(fault)
    }
}

impl fmt::Display for Cause {
    ghost output = { λ c. Some (cause_fields c) };

    fn fmt<W: fmt::Write>(&self, f: &mut fmt::Formatter<W>) -> fmt::Result {
        let number: u8 = match *self {
            Cause::Field => 40,
            Cause::Version => 41,
            Cause::Whiteout => 42,
            // a path's fault has its own numbers
            Cause::Path(path) => return write!(f, "{path}"),
            Cause::Order => 43,
            Cause::Parent => 44,
            Cause::Value => 45,
            Cause::TooMany => 46,
            Cause::Count => 47,
        };
        write!(f, "{number}")
    }
}

impl Error for Cause {}

// A cause, at the position of the field's first byte.
#[derive(Clone, Copy, PartialEq, Eq, Debug)]
pub struct LayerFault {
    pub at: usize,
    pub cause: Cause,
}

impl fmt::Display for LayerFault {
    ghost output = { λ f. Some (fields f) };

    fn fmt<W: fmt::Write>(&self, f: &mut fmt::Formatter<W>) -> fmt::Result {
        let LayerFault { at, cause } = self;
        write!(f, "l {at} {cause}")
    }
}

impl Error for LayerFault {}
