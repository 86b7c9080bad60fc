// Why a line was not read.
ghost use Rattle.std.specs.Prelude.{◌≡◌};
ghost use Rattle.script.specs.declared.fault.Fault.TheVariants.{Memory, NotACall};

use crate::reason::Reason;
use std::alloc::{AllocError, AllocFailed};

#[derive(Drop)]
pub enum Fault {
    Memory,
    NotACall(Reason),
}

// The conversions are written out: a derived one has no contract, and clauses name the error that `?` makes.
impl From<AllocError> for Fault {
    ghost from_gives = { λ _ f. f ≡ Memory };

    fn from(_e: AllocError) -> Fault {
        Fault::Memory
    }
}

impl<T: Drop> From<AllocFailed<T>> for Fault {
    ghost from_gives = { λ _ f. f ≡ Memory };

    fn from(_e: AllocFailed<T>) -> Fault {
        Fault::Memory
    }
}

impl From<Reason> for Fault {
    ghost from_gives = { λ w f. f ≡ NotACall w };

    fn from(reason: Reason) -> Fault {
        Fault::NotACall(reason)
    }
}
