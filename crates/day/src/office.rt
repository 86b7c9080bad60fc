// The desk of a book, over the field and the cipher that its line named.
ghost use Rattle.std.specs.Prelude.{◌≡◌, length, MatchResult};
ghost use Rattle.script.specs.Lines.{asked};
ghost use Rattle.day.specs.Calls.{Made};
ghost use Rattle.day.specs.Offices.{desk_of, new_desk};

use crate::answer::Answer;
use crate::calls::run_call;
use b63::B63;
use desk::Desk;
use m61::M61;
use script::{Call, CipherName, FieldName};
use std::alloc::{AllocError, Global};

// A field is a type, so there is a desk for each; a cipher is named by a value.
pub enum Office {
    M61(Desk<M61, CipherName>),
    B63(Desk<B63, CipherName>),
}

impl Office {
    // A new book, and no draw in hand.
    pub fn begin(heap: Global, field: FieldName, cipher: CipherName) -> Office
        ensures { desk_of result ≡ new_desk field cipher }
    {
        match field {
            FieldName::M61 => Office::M61(Desk::new(heap, M61, cipher)),
            FieldName::B63 => Office::B63(Desk::new(heap, B63, cipher)),
        }
    }

    // The only error is want of memory, and then nothing changed.
    pub fn run(&mut self, call: Call, ring: &mut [u64]) -> Result<Answer, AllocError>
        ensures { MatchResult result (λ a. Made (desk_of self.old) (asked call) (length ring.old) a (desk_of self.new)) (λ _. desk_of self.new ≡ desk_of self.old) }
    {
        match self {
            Office::M61(desk) => run_call(desk, call, ring),
            Office::B63(desk) => run_call(desk, call, ring),
        }
    }

    // Voids the draws in hand, and ends the book.
    pub fn end(self) {
        match self {
            Office::M61(desk) => {
                let (M61, _) = desk.end().end();
            }
            Office::B63(desk) => {
                let (B63, _) = desk.end().end();
            }
        }
    }
}
