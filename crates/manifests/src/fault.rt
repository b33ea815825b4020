// Why a manifest is refused, and where.
ghost use Rattle.std.specs.Prelude.{Some};
ghost use Rattle.manifests.specs.Faults.{fields};

use std::error::Error;
use std::fmt;
use words::fault::Cause;

// A cause, at the position of its line's first byte.
#[derive(Clone, Copy, PartialEq, Eq, Debug)]
pub struct ManifestFault {
    pub at: usize,
    pub cause: Cause,
}

impl fmt::Display for ManifestFault {
    ghost output = { λ f. Some (fields f) };

    fn fmt<W: fmt::Write>(&self, f: &mut fmt::Formatter<W>) -> fmt::Result {
        let ManifestFault { at, cause } = self;
        write!(f, "m {at} {cause}")
    }
}

impl Error for ManifestFault {}
