// The book: 256 graves, one field and one cipher.
ghost use Rattle.std.specs.Prelude.{◌≡◌, [], length, replicate, IfOk, IfErr};
ghost use Rattle.refusal.specs.Outcomes.{told};
ghost use Rattle.seal.specs.Seals.{sealing};
ghost use Rattle.promise.specs.History.{to_open, to_draw, to_seal, to_void, to_check, to_clear, to_close};
ghost use Rattle.promise.specs.Records.{new, is_free, is_used};
ghost use Rattle.promise.specs.Register.{Reached};
ghost use Rattle.promise.specs.Promise.{Promise};
ghost use Rattle.graves.specs.Entries.{the_record, records};
ghost use Rattle.graves.specs.Checks.{checked_told, claimed};
ghost use Rattle.book.specs.Calls.{state, Done, drawn_told, sealed_told, place_outcome, account_told, tell_outcome, Owing};

use graves::entry::{Entry, State};
use graves::held::Held;
use graves::record::Record;
use graves::turns::Standing;
use seal::{Cipher, Claim, Field, Key, Refusal, Wipe};

// A draw: the right to seal one sheet at a grave. Only `Book::draw` makes one, and only `Book::seal` and `Book::void`
// take one; it cannot be let go, copied or made up.
pub struct Draw {
    grave: u8,
    number: u64,
}

impl Draw {
    pub fn grave(&self) -> u8
        ensures { result ≡ self.now.grave }
    {
        self.grave
    }

    pub fn number(&self) -> u64
        ensures { result ≡ self.now.number }
    {
        self.number
    }

    // The end of a draw that seal or void took.
    fn spend(self) {
        let Draw {
            grave: _,
            number: _,
        } = self;
    }
}

// A draw that was not sealed, handed back with the reason.
pub struct Returned {
    pub refusal: Refusal,
    pub draw: Draw,
}

// What the book tells of a grave.
#[derive(Clone, Copy)]
pub struct Account {
    pub state: State,
    pub sealed: u64,
    pub voided: u64,
    pub held: u64,
    pub current: Option<u64>,
}

const FREE: Record = Record {
    entry: Entry {
        state: State::Free,
        key: Key {
            first: 0,
            second: 0,
        },
        next: 0,
        held: Held::Zero,
        sealed: 0,
        voided: 0,
        current: None,
    },
};

struct Graves {
    table: [Record; 256],
}

pub struct Book<F, C> {
    field: F,
    cipher: C,
    graves: Graves,
}

impl<F: Field, C: Cipher> Book<F, C> {
    // A new book, all of whose graves are free. Its promise holds of every run of calls that begins here.
    pub fn new(field: F, cipher: C) -> Book<F, C>
        ensures state { state F.Field.model C.Cipher.function result ≡ record { field = field; cipher = cipher; sealing = sealing F.Field.model (C.Cipher.function cipher); table = new } }
        ensures starts { let book = state F.Field.model C.Cipher.function result in Reached book.sealing [] book.table }
        ensures promise { Promise F.Field.model (state F.Field.model C.Cipher.function result).sealing }
    {
        Book {
            field,
            cipher,
            graves: Graves { table: [FREE; 256] },
        }
    }

    // The end of a book: its field and its cipher are the caller's again.
    pub fn end(self) -> (F, C)
        ensures { (result.0 ≡ self.field) × (result.1 ≡ self.cipher) }
    {
        let Book {
            field,
            cipher,
            graves,
        } = self;
        let Graves { table: _ } = graves;
        (field, cipher)
    }

    // Hands out the grave's next draw.
    pub fn draw(&mut self, grave: u16) -> Result<Draw, Refusal>
        ensures done { Done (state F.Field.model C.Cipher.function self.old) (to_draw grave) (drawn_told result) (state F.Field.model C.Cipher.function self.new) }
        ensures token { IfOk result (λ d. d.grave ≡ grave) }
    {
        let grave = place(grave)?;
        let number = self.graves.table[usize::from(grave)].draw()?;
        Ok(Draw { grave, number })
    }

    // Takes the draw in every case, and says why where it was not voided.
    pub fn void(&mut self, draw: Draw) -> Result<(), Refusal>
        ensures { Done (state F.Field.model C.Cipher.function self.old) (to_void draw.grave draw.number) (told result) (state F.Field.model C.Cipher.function self.new) }
    {
        let Draw { grave, number } = draw;
        let record = &mut self.graves.table[usize::from(grave)];
        record.void(number)
    }

    // False seals become none, and a locked grave is open.
    pub fn clear(&mut self, grave: u16) -> Result<(), Refusal>
        ensures { Done (state F.Field.model C.Cipher.function self.old) (to_clear grave) (told result) (state F.Field.model C.Cipher.function self.new) }
    {
        let grave = place(grave)?;
        let record = &mut self.graves.table[usize::from(grave)];
        record.clear()
    }

    // Closes the grave for good; the draws that it holds count as voided.
    pub fn close(&mut self, grave: u16) -> Result<(), Refusal>
        ensures { Done (state F.Field.model C.Cipher.function self.old) (to_close grave) (told result) (state F.Field.model C.Cipher.function self.new) }
    {
        let grave = place(grave)?;
        let record = &mut self.graves.table[usize::from(grave)];
        record.close()
    }

    // Opens a free grave with a key that no grave of this book has or had.
    pub fn open(&mut self, grave: u16, key: Key) -> Result<(), Refusal>
        ensures { Done (state F.Field.model C.Cipher.function self.old) (to_open grave key) (told result) (state F.Field.model C.Cipher.function self.new) }
    {
        let grave = place(grave)?;
        let record = &self.graves.table[usize::from(grave)];
        // Only a free grave is opened, so the keys are looked through for no other.
        let used = is_free(record) && key_used(&self.graves.table, key);
        let record = &mut self.graves.table[usize::from(grave)];
        record.open(key, used)
    }

    // Seals a text under the draw, or hands the draw back. A lock does not stop it.
    pub fn seal(&mut self, draw: Draw, text: &[u8], ring: &mut [u64]) -> Result<u64, Returned>
        ensures done { Done (state F.Field.model C.Cipher.function self.old) (to_seal draw.grave draw.number text.now (length ring.old)) (sealed_told result) (state F.Field.model C.Cipher.function self.new) }
        ensures back { IfErr result (λ b. b.draw ≡ draw) }
        ensures zeros { ring.new ≡ replicate (length ring.old) 0 }
    {
        let guard = Wipe { ring };
        let record = &mut self.graves.table[usize::from(draw.grave)];
        match record.seal::<F, C>(&mut self.cipher, draw.number, text, guard.ring) {
            Err(refusal) => Err(Returned { refusal, draw }),
            Ok(seal) => {
                draw.spend();
                Ok(seal)
            }
        }
    }

    // Whether a sheet is one that the office sealed. A wrong seal is counted at its grave, and the fourth locks it.
    pub fn check(
        &mut self,
        grave: u16,
        claim: Claim<'_>,
        ring: &mut [u64],
    ) -> Result<Standing, Refusal>
        ensures done { Done (state F.Field.model C.Cipher.function self.old) (to_check grave (claimed claim.entry) (length ring.old)) (checked_told result) (state F.Field.model C.Cipher.function self.new) }
        ensures zeros { ring.new ≡ replicate (length ring.old) 0 }
    {
        let wiping = Wipe { ring };
        let grave = place(grave)?;
        let record = &mut self.graves.table[usize::from(grave)];
        record.check::<F, C>(&mut self.cipher, claim, wiping.ring)
    }

    // State, counts and current draw of a grave.
    pub fn tell(&self, grave: u16) -> Result<Account, Refusal>
        ensures { account_told result ≡ tell_outcome (records self.now.graves.table) grave }
    {
        let grave = place(grave)?;
        let entry = self.graves.table[usize::from(grave)].entry;
        Ok(Account {
            state: entry.state,
            sealed: entry.sealed,
            voided: entry.voided,
            held: entry.held.count(),
            current: entry.current,
        })
    }

    // Some grave with held draws, if there is one.
    pub fn owing(&self) -> Option<u8>
        ensures owing { Owing (records self.now.graves.table) result }
    {
        let grave = self
            .graves
            .table
            .iter()
            .position(|record| record.entry.held.count() > 0)?;
        Some(grave as u8)
    }
}

// The number of a grave of the book, which is its place in the table.
fn place(grave: u16) -> Result<u8, Refusal>
    ensures { told result ≡ place_outcome grave }
{
    u8::try_from(grave).map_err(|_| Refusal::GraveOutOfRange)
}

// Whether the record is of a grave that was never opened.
fn is_free(found: &Record) -> bool
    ensures { result ≡ is_free (the_record found.now).state }
{
    matches!(found.entry.state, State::Free)
}

// Whether a grave that is not free has the key.
fn key_used(table: &[Record], key: Key) -> bool
    ensures { result ≡ is_used (records table.now) key }
{
    table.iter().any(|record| record.entry.holds_key(key))
}
