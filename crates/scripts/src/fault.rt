// Why a line is not read.
ghost use Rattle.std.specs.Prelude.{◌≡◌};
ghost use Rattle.scripts.specs.declared.fault.LineFault.TheVariants.{Memory as Wanting};

use std::alloc::AllocError;

#[derive(Drop)]
pub(crate) enum LineFault {
    // Nothing that may be asked for stands there.
    Unreadable,
    // Memory is wanting.
    Memory(AllocError),
}

impl From<AllocError> for LineFault {
    ghost from_gives = { λ e r. r ≡ Wanting e };

    fn from(error: AllocError) -> LineFault {
        LineFault::Memory(error)
    }
}
