// Why a desk hands out no draw, or spends none.
ghost use Rattle.std.specs.Prelude.{◌≡◌};
ghost use Rattle.desk.specs.declared.errors.DrawError.TheVariants as of_draw;
ghost use Rattle.desk.specs.declared.errors.SpendError.TheVariants as of_spend;

use refusal::Refusal;
use std::alloc::AllocError;

// Why no draw is handed out: there is no memory for it, or the book refuses it.
#[derive(Clone, Copy, PartialEq, Eq, Debug)]
pub enum DrawError {
    Memory(AllocError),
    Refused(Refusal),
}

// Why a draw is neither sealed nor voided: it is not in hand, or the book refuses it.
#[derive(Clone, Copy, PartialEq, Eq, Debug)]
pub enum SpendError {
    NotInHand,
    Refused(Refusal),
}

impl From<AllocError> for DrawError {
    ghost from_gives = { λ why e. e ≡ of_draw.Memory why };

    fn from(why: AllocError) -> DrawError {
        DrawError::Memory(why)
    }
}

impl From<Refusal> for DrawError {
    ghost from_gives = { λ w e. e ≡ of_draw.Refused w };

    fn from(refusal: Refusal) -> DrawError {
        DrawError::Refused(refusal)
    }
}

impl From<Refusal> for SpendError {
    ghost from_gives = { λ w e. e ≡ of_spend.Refused w };

    fn from(refusal: Refusal) -> SpendError {
        SpendError::Refused(refusal)
    }
}
