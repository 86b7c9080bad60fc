// An office's day: the lines of a script, each run as a call on a book, and their answers.
#![tactic(auto)]

ghost use Rattle.std.specs.Prelude.{◌≡◌, Some, None, MatchResult};
ghost use Rattle.script.specs.Lines.{asked, says};
ghost use Rattle.day.specs.Offices.{new_desk};
ghost use Rattle.day.specs.Days.{now_at, Ran, Answered};

use crate::office::Office;
use script::{Call, CipherName, Fault, FieldName, Line, MOST_PLACES, Places, read_line};
use std::alloc::{AllocError, Global};

mod answer;
mod call_error;
mod calls;
mod office;
mod shown;

pub use answer::Answer;

// The places that calls are lent until a line says otherwise.
const FIRST_PLACES: usize = 8;

pub struct Day {
    // None before the first book
    office: Option<Office>,
    places: Places,
}

impl Day {
    // A day before its first book.
    pub fn new() -> Day
        ensures { now_at result ≡ record { desk = None; places = 8 } }
    {
        Day {
            office: None,
            places: Places {
                count: FIRST_PLACES,
            },
        }
    }

    // The answer to a line; an empty line and a comment have none. The only error is want of memory, and then nothing
    // changed.
    pub fn answer(&mut self, heap: Global, line: &str) -> Result<Option<Answer>, AllocError>
        ensures { MatchResult result (λ a. Answered (now_at self.old) (says line.now) a (now_at self.new)) (λ _. now_at self.new ≡ now_at self.old) }
    {
        match read_line(heap, line) {
            Err(Fault::Memory) => Err(AllocError),
            Err(Fault::NotACall(reason)) => Ok(Some(Answer::NotACall(reason))),
            Ok(Line::Blank) => Ok(None),
            Ok(Line::Book { field, cipher }) => {
                self.begin(heap, field, cipher);
                Ok(Some(Answer::Done))
            }
            Ok(Line::Ring { places }) => {
                self.places = places;
                Ok(Some(Answer::Done))
            }
            Ok(Line::Call(call)) => Ok(Some(self.run(call)?)),
        }
    }

    // A new book; the draws of the one before are voided, and that book ends.
    fn begin(&mut self, heap: Global, field: FieldName, cipher: CipherName)
        ensures { now_at self.new ≡ record { desk = Some (new_desk field cipher); places = self.old.places.count } }
    {
        if let Some(before) = self.office.replace(Office::begin(heap, field, cipher)) {
            before.end();
        }
    }

    fn run(&mut self, call: Call) -> Result<Answer, AllocError>
        ensures { Ran (now_at self.old) (asked call) result (now_at self.new) }
    {
        // The ring lies on the stack, as many of the most places as a line asked for, so that no call needs the heap for it.
        let mut ring = [0; MOST_PLACES];
        match &mut self.office {
            Some(office) => office.run(call, &mut ring[..self.places.count]),
            None => Ok(Answer::NoBook),
        }
    }

    // Voids the draws still in hand.
    pub fn end(self) {
        let Day { office, places: _ } = self;
        if let Some(office) = office {
            office.end();
        }
    }
}
