// Why a line of a manifest is refused, or the whole.
ghost use Rattle.std.specs.Prelude.{◌≡◌, Some};
ghost use Rattle.words.specs.declared.fault.Cause.TheVariants.{Path as Faulty};
ghost use Rattle.words.specs.Faults.{cause_fields};

use paths::PathFault;
use std::error::Error;
use std::fmt;

#[derive(Clone, Copy, PartialEq, Eq, Debug)]
pub enum Cause {
    // The text is too long, or does not begin with the line `#mtree`.
    Header,
    // A bad path word, or no newline behind the line.
    Word,
    // The path is not good.
    Path(PathFault),
    // A keyword is unknown, missing or out of place.
    Keyword,
    // A keyword's value is bad.
    Value,
    // The path does not come after the one before it.
    Order,
    // No earlier directory is the path's parent, or the root is no directory.
    Parent,
    // More entries than there may be.
    TooMany,
    // The rows are not those of the text.
    OtherRows,
}

impl From<PathFault> for Cause {
    ghost from_gives = { λ e r. r ≡ Faulty e };

    fn from(fault: PathFault) -> Cause {
        Cause::Path(fault)
    }
}

impl fmt::Display for Cause {
    ghost output = { λ c. Some (cause_fields c) };

    fn fmt<W: fmt::Write>(&self, f: &mut fmt::Formatter<W>) -> fmt::Result {
        let number: u8 = match *self {
            Cause::Header => 30,
            Cause::Word => 31,
            // a path's fault has its own numbers
            Cause::Path(path) => return write!(f, "{path}"),
            Cause::Keyword => 32,
            Cause::Value => 33,
            Cause::Order => 34,
            Cause::Parent => 35,
            Cause::TooMany => 36,
            Cause::OtherRows => 37,
        };
        write!(f, "{number}")
    }
}

impl Error for Cause {}
