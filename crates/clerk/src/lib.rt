// A client of the book: it draws, seals, and voids the draw that comes back.
#![tactic(auto)]

ghost use Rattle.std.specs.Prelude.{◌≡◌, length, replicate, MatchResult, OnOk};
ghost use Rattle.refusal.specs.Numbers.{number_of};
ghost use Rattle.book.specs.Calls.{state};
ghost use Rattle.clerk.specs.Issues.{Issues, GivesUp};

use book::{Book, Returned};
use refusal::Refusal;
use seal::{Cipher, Field};

// A sheet's draw and its seal.
#[derive(Clone, Copy)]
pub struct Issued {
    pub draw: u64,
    pub seal: u64,
}

// Seals a text at a grave under its next draw. Where the book refuses the seal, the draw is voided.
pub fn issue<F: Field, C: Cipher>(
    book: &mut Book<F, C>,
    grave: u16,
    text: &[u8],
    ring: &mut [u64],
) -> Result<Issued, Refusal>
    ensures issued { MatchResult result (λ i. Issues (state F.Field.model C.Cipher.function book.old) grave (record { draw = i.draw; text = text.now; seal = i.seal }) (state F.Field.model C.Cipher.function book.new)) (λ w. GivesUp (state F.Field.model C.Cipher.function book.old) grave (number_of w) (state F.Field.model C.Cipher.function book.new)) }
    ensures zeros { OnOk result (ring.new ≡ replicate (length ring.old) 0) }
{
    let draw = book.draw(grave)?;
    let number = draw.number();
    match book.seal(draw, text, ring) {
        Ok(seal) => Ok(Issued { draw: number, seal }),
        Err(Returned { refusal, draw }) => {
            let _ = book.void(draw);
            Err(refusal)
        }
    }
}
