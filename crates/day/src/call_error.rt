// Why a call is not done.
ghost use Rattle.std.specs.Prelude.{◌≡◌};
ghost use Rattle.day.specs.Errors.{from_draw, from_spend};
ghost use Rattle.day.specs.declared.call_error.CallError.TheVariants.{Refused};

use desk::{DrawError, SpendError};
use refusal::Refusal;
use std::alloc::AllocError;

#[derive(Clone, Copy)]
pub enum CallError {
    Memory(AllocError),
    NotInHand,
    Refused(Refusal),
}

impl From<Refusal> for CallError {
    ghost from_gives = { λ w e. e ≡ Refused w };

    fn from(refusal: Refusal) -> CallError {
        CallError::Refused(refusal)
    }
}

impl From<DrawError> for CallError {
    ghost from_gives = { λ why e. e ≡ from_draw why };

    fn from(why: DrawError) -> CallError {
        match why {
            DrawError::Memory(why) => CallError::Memory(why),
            DrawError::Refused(refusal) => CallError::Refused(refusal),
        }
    }
}

impl From<SpendError> for CallError {
    ghost from_gives = { λ why e. e ≡ from_spend why };

    fn from(why: SpendError) -> CallError {
        match why {
            SpendError::NotInHand => CallError::NotInHand,
            SpendError::Refused(refusal) => CallError::Refused(refusal),
        }
    }
}
