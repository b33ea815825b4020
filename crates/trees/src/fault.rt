// Why a tree or a buffer refuses a call. A number is the count of the path's prefixes that are
// present, and at `NoRoom` the need.
ghost use Rattle.std.specs.Prelude.{◌≡◌, Some};
ghost use Rattle.trees.specs.declared.fault.Fault.TheVariants.{Path as PathFaulty};
ghost use Rattle.trees.specs.Faults.{fields};

use paths::PathFault;
use std::error::Error;
use std::fmt;

#[derive(Clone, Copy, PartialEq, Eq, Debug)]
pub enum Fault {
    // The path is not good.
    Path(PathFault),
    // Nothing is there.
    Missing(usize),
    // Something on the way, or the path itself, is no directory.
    NotDirectory(usize),
    // A file is put on a directory.
    IsDirectory(usize),
    // A directory is made where something is.
    Exists(usize),
    // A directory with a child is removed.
    NotEmpty(usize),
    // The root is put, made or removed.
    Root,
    // A mode or a size is out of range, or a directory is put.
    OutOfRange,
    // The edit needs more rows than there are.
    NoRoom(usize),
    // The buffer is too short.
    ShortBuffer,
}

impl From<PathFault> for Fault {
    ghost from_gives = { λ e r. r ≡ PathFaulty e };

    fn from(why: PathFault) -> Fault {
        Fault::Path(why)
    }
}

impl fmt::Display for Fault {
    ghost output = { λ f. Some (fields f) };

    fn fmt<W: fmt::Write>(&self, f: &mut fmt::Formatter<W>) -> fmt::Result {
        let (cause, place): (u8, usize) = match *self {
            // A path's fault has its own cause and place.
            Fault::Path(fault) => return write!(f, "{fault}"),
            Fault::Missing(place) => (10, place),
            Fault::NotDirectory(place) => (11, place),
            Fault::IsDirectory(place) => (12, place),
            Fault::Exists(place) => (13, place),
            Fault::NotEmpty(place) => (15, place),
            Fault::Root => (16, 0),
            Fault::OutOfRange => (17, 0),
            Fault::NoRoom(need) => (20, need),
            Fault::ShortBuffer => (21, 0),
        };
        write!(f, "t {cause} {place}")
    }
}

impl Error for Fault {}
