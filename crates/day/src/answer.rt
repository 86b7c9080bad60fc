// What a line answers, and how it prints.
ghost use Rattle.std.specs.Prelude.{Some};
ghost use Rattle.day.specs.Printing.{printed};

use crate::shown::Shown;
use book::{Account, Standing};
use refusal::Refusal;
use script::Reason;
use std::fmt;

// One enum for all that a line prints, so a refusal is an answer here; within a call it is an error, and goes by `?`.
#[derive(Clone, Copy)]
pub enum Answer {
    Done,
    Drawn(u64),
    Sealed(u64),
    Standing(Standing),
    Refused(Refusal),
    Account(Account),
    Owing(Option<u8>),
    // a seal or a void of a draw that the desk does not hold
    NotInHand,
    // a call before the first book
    NoBook,
    NotACall(Reason),
}

impl fmt::Display for Answer {
    ghost output = { λ a. Some (printed a) };

    fn fmt<W: fmt::Write>(&self, f: &mut fmt::Formatter<W>) -> fmt::Result {
        match self {
            Answer::Done => write!(f, "ok"),
            Answer::Drawn(draw) => write!(f, "draw {draw}"),
            Answer::Sealed(seal) => write!(f, "seal {seal:016x}"),
            Answer::Standing(Standing::Current) => write!(f, "current"),
            Answer::Standing(Standing::Superseded) => write!(f, "superseded"),
            Answer::Refused(refusal) => write!(f, "{refusal}"),
            Answer::Account(account) => {
                let Account {
                    state,
                    sealed,
                    voided,
                    held,
                    current,
                } = *account;
                let (state, current) = (Shown(state), Shown(current));
                write!(
                    f,
                    "{state}, sealed {sealed}, voided {voided}, held {held}, current {current}"
                )
            }
            Answer::Owing(grave) => write!(f, "owing {}", Shown(*grave)),
            Answer::NotInHand => write!(f, "not in hand"),
            Answer::NoBook => write!(f, "not a call: no book is begun yet"),
            Answer::NotACall(reason) => write!(f, "not a call: {reason}"),
        }
    }
}
