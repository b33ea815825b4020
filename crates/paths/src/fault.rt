// How a path's fault is printed: `p`, its cause and its place.
ghost use Rattle.std.specs.Prelude.{Some};
ghost use Rattle.paths.specs.Faults.{fields};

use crate::PathFault;
use std::error::Error;
use std::fmt;

impl fmt::Display for PathFault {
    ghost output = { λ f. Some (fields f) };

    fn fmt<W: fmt::Write>(&self, f: &mut fmt::Formatter<W>) -> fmt::Result {
        match self {
            PathFault::TooLong => write!(f, "p 1 0"),
            PathFault::BadName(count) => write!(f, "p 2 {count}"),
            PathFault::TooDeep => write!(f, "p 3 8"),
        }
    }
}

impl Error for PathFault {}
