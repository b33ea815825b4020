// Why a refit ends before anything is told.
ghost use Rattle.std.specs.Prelude.{◌≡◌};
ghost use Rattle.reports.specs.Refusals.{refusal as refusal_of};
ghost use Rattle.refits.specs.declared.stop.Stop.TheVariants.{Memory as Wanting};
ghost use Rattle.refits.specs.Steps.{Says};

use reports::refusal::{Reason, refusal};
use std::alloc::{AllocError, Global};

#[derive(Drop)]
pub(crate) enum Stop {
    // The line that tells what is refused.
    Refused(String),
    // Memory is wanting.
    Memory(AllocError),
}

impl Stop {
    pub(crate) fn refused(heap: Global, subject: &str, reason: Reason) -> Stop
        ensures { Says (refusal_of subject.now reason) result }
    {
        match refusal(heap, subject, reason) {
            Ok(line) => Stop::Refused(line),
            Err(error) => Stop::Memory(error),
        }
    }
}

impl From<AllocError> for Stop {
    ghost from_gives = { λ e r. r ≡ Wanting e };

    fn from(error: AllocError) -> Stop {
        Stop::Memory(error)
    }
}
