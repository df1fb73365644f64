//! Why a day ends before its session.
ghost use Rattle.std.specs.Prelude.{◌≡◌};
ghost use Rattle.runner.specs.declared.halt.Halt.TheVariants as halt;

use refusal::Refusal;
use std::alloc::{AllocError, AllocFailed};

/// A refusal that ends the day, or want of memory.
#[derive(Drop)]
pub(crate) enum Halt {
    Refused(Refusal),
    NoMemory(AllocError),
}

impl From<Refusal> for Halt {
    ghost from_gives = { λ e r. r ≡ halt.Refused e };

    fn from(e: Refusal) -> Halt {
        Halt::Refused(e)
    }
}

impl From<AllocError> for Halt {
    ghost from_gives = { λ e r. r ≡ halt.NoMemory e };

    fn from(e: AllocError) -> Halt {
        Halt::NoMemory(e)
    }
}

impl<T: Drop> From<AllocFailed<T>> for Halt {
    ghost from_gives = { λ _ r. (e : _) × (r ≡ halt.NoMemory e) };

    fn from(e: AllocFailed<T>) -> Halt {
        Halt::NoMemory(e.into())
    }
}
