// How parts of an account print.
ghost use Rattle.std.specs.Prelude.{Some};
ghost use Rattle.std.specs.Option.{option_map_or};
ghost use Rattle.day.specs.Words.{none_word, state_words};

use book::State;
use std::fmt;

// A value, as an answer prints it.
#[derive(Clone, Copy)]
pub struct Shown<T>(pub T);

impl fmt::Display for Shown<State> {
    ghost output = { λ s. Some (state_words s.0) };

    fn fmt<W: fmt::Write>(&self, f: &mut fmt::Formatter<W>) -> fmt::Result {
        match self.0 {
            State::Free => write!(f, "free"),
            State::Open { false_seals } => write!(f, "open {false_seals}"),
            State::Locked => write!(f, "locked"),
            State::Closed => write!(f, "closed"),
        }
    }
}

impl<T: fmt::Display + Copy> fmt::Display for Shown<Option<T>> {
    ghost output = { λ s. option_map_or T.output s.0 (Some none_word) };

    fn fmt<W: fmt::Write>(&self, f: &mut fmt::Formatter<W>) -> fmt::Result {
        match self.0 {
            Some(number) => write!(f, "{number}"),
            None => write!(f, "none"),
        }
    }
}
