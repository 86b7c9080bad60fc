// A clerk's desk: a book, and the draws that it has handed out and that are neither sealed nor voided.
#![tactic(auto)]

ghost use Rattle.std.specs.Prelude.{◌≡◌, ◌<◌, [], length, replicate, vec_len, vec_capacity, MatchOption};
ghost use Rattle.refusal.specs.Outcomes.{told};
ghost use Rattle.seal.specs.Seals.{sealing};
ghost use Rattle.promise.specs.History.{to_open, to_check, to_clear, to_close};
ghost use Rattle.promise.specs.Records.{new};
ghost use Rattle.promise.specs.Register.{Reached};
ghost use Rattle.promise.specs.Promise.{Promise};
ghost use Rattle.graves.specs.Entries.{records};
ghost use Rattle.graves.specs.Checks.{checked_told, claimed};
ghost use Rattle.book.specs.Calls.{account_told, tell_outcome, Owing};
ghost use Rattle.book.specs.Calls as books;
ghost use Rattle.desk.specs.Desks.{state, PassedOn, Draws, Seals, Voids, Ended, RingLeft};
ghost use Rattle.desk.specs.Taking.{Taken};

use book::{Account, Book, Claim, Draw, Returned, Standing};
use refusal::Refusal;
use seal::{Cipher, Field, Key};
use std::alloc::Global;

mod errors;

pub use errors::{DrawError, SpendError};

pub struct Desk<F, C> {
    book: Book<F, C>,
    hand: Vec<Draw>,
}

// Takes the draw out of the hand, if it is there. There is then room for it to come back. Grave and number stay two
// parameters here and in the calls below: they come apart from a caller, and no draw in hand is made of them.
fn take(hand: &mut Vec<Draw>, grave: u16, number: u64) -> Option<Draw>
    ensures taken { Taken grave number hand.old.items result hand.new.items }
    ensures room { MatchOption result (hand.new ≡ hand.old) (λ _. vec_len hand.new < vec_capacity hand.new) }
{
    let is_it = |draw: &Draw| u16::from(draw.grave()) == grave && draw.number() == number;
    let place = hand.iter().position(is_it)?;
    Some(hand.remove(place))
}

impl<F: Field, C: Cipher> Desk<F, C> {
    // A desk with a new book, and no draw in hand.
    pub fn new(heap: Global, field: F, cipher: C) -> Desk<F, C>
        ensures state { state F.Field.model C.Cipher.function result ≡ record { book = record { field = field; cipher = cipher; sealing = sealing F.Field.model (C.Cipher.function cipher); table = new }; hand = [] } }
        ensures starts { let book = (state F.Field.model C.Cipher.function result).book in Reached book.sealing [] book.table }
        ensures promise { Promise F.Field.model (state F.Field.model C.Cipher.function result).book.sealing }
    {
        Desk {
            book: Book::new(field, cipher),
            hand: Vec::new(heap),
        }
    }

    // Calls that are only passed on stay one by one: each says what the hand keeps, and the book is lent to nobody.
    pub fn open(&mut self, grave: u16, key: Key) -> Result<(), Refusal>
        ensures { PassedOn (state F.Field.model C.Cipher.function self.old) (to_open grave key) (told result) (state F.Field.model C.Cipher.function self.new) }
    {
        self.book.open(grave, key)
    }

    // The number of the grave's next draw, which is then in hand. Without memory for it the book is not asked.
    pub fn draw(&mut self, grave: u16) -> Result<u64, DrawError>
        ensures { Draws (state F.Field.model C.Cipher.function self.old) grave result (state F.Field.model C.Cipher.function self.new) }
    {
        self.hand.reserve(1)?;
        let draw = self.book.draw(grave)?;
        let number = draw.number();
        self.hand.push_reserved(draw);
        Ok(number)
    }

    // What the book answers where the draw is in hand. A draw that is refused comes back into the hand.
    pub fn seal(
        &mut self,
        grave: u16,
        number: u64,
        text: &[u8],
        ring: &mut [u64],
    ) -> Result<u64, SpendError>
        ensures done { Seals (state F.Field.model C.Cipher.function self.old) grave number text.now (length ring.old) result (state F.Field.model C.Cipher.function self.new) }
        ensures ring { RingLeft result ring.old ring.new }
    {
        let draw = take(&mut self.hand, grave, number).ok_or(SpendError::NotInHand)?;
        match self.book.seal(draw, text, ring) {
            Ok(seal) => Ok(seal),
            Err(Returned { refusal, draw }) => {
                self.hand.push_reserved(draw);
                Err(SpendError::Refused(refusal))
            }
        }
    }

    // What the book answers where the draw is in hand.
    pub fn void(&mut self, grave: u16, number: u64) -> Result<(), SpendError>
        ensures { Voids (state F.Field.model C.Cipher.function self.old) grave number result (state F.Field.model C.Cipher.function self.new) }
    {
        let draw = take(&mut self.hand, grave, number).ok_or(SpendError::NotInHand)?;
        self.book.void(draw)?;
        Ok(())
    }

    pub fn check(
        &mut self,
        grave: u16,
        claim: Claim<'_>,
        ring: &mut [u64],
    ) -> Result<Standing, Refusal>
        ensures done { PassedOn (state F.Field.model C.Cipher.function self.old) (to_check grave (claimed claim.entry) (length ring.old)) (checked_told result) (state F.Field.model C.Cipher.function self.new) }
        ensures zeros { ring.new ≡ replicate (length ring.old) 0 }
    {
        self.book.check(grave, claim, ring)
    }

    pub fn clear(&mut self, grave: u16) -> Result<(), Refusal>
        ensures { PassedOn (state F.Field.model C.Cipher.function self.old) (to_clear grave) (told result) (state F.Field.model C.Cipher.function self.new) }
    {
        self.book.clear(grave)
    }

    // The draws in hand of a closed grave stay there, and the book refuses each.
    pub fn close(&mut self, grave: u16) -> Result<(), Refusal>
        ensures { PassedOn (state F.Field.model C.Cipher.function self.old) (to_close grave) (told result) (state F.Field.model C.Cipher.function self.new) }
    {
        self.book.close(grave)
    }

    pub fn tell(&self, grave: u16) -> Result<Account, Refusal>
        ensures { account_told result ≡ tell_outcome (records self.now.book.graves.table) grave }
    {
        self.book.tell(grave)
    }

    pub fn owing(&self) -> Option<u8>
        ensures { Owing (records self.now.book.graves.table) result }
    {
        self.book.owing()
    }

    // Voids the draws in hand, the newest first, and hands over the book.
    pub fn end(self) -> Book<F, C>
        ensures { Ended (state F.Field.model C.Cipher.function self) (books.state F.Field.model C.Cipher.function result) }
    {
        let Desk { mut book, mut hand } = self;
        while let Some(draw) = hand.pop() {
            let _ = book.void(draw);
        }
        hand.destroy_empty();
        book
    }
}
