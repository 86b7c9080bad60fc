// Why a call refuses: one list for the whole library, each case with a number that never changes.
#![tactic(auto)]

ghost use Rattle.std.specs.Prelude.{◌≡◌, Some};
ghost use Rattle.refusal.specs.Numbers.{number_of, printed};

use std::fmt;

#[derive(Clone, Copy, PartialEq, Eq, Debug)]
pub enum Refusal {
    // the grave's number is above 255
    GraveOutOfRange = 1,
    // the grave was opened before
    GraveNotFree = 2,
    // a grave of this book has or had the key
    KeyUsed = 3,
    // the grave is free or closed
    GraveFreeOrClosed = 4,
    // the grave is locked
    GraveLocked = 5,
    // the grave holds four draws
    FourDrawsHeld = 6,
    // the grave has handed out its 1,000,000 draws
    DrawsExhausted = 7,
    // the grave does not hold the draw
    DrawNotHeld = 8,
    // the text has more bytes than a text may have
    TextTooLong = 9,
    // the ring has fewer places than the text has chunks
    RingTooShort = 10,
    // the grave has not handed out the draw yet
    DrawNotHandedOut = 11,
    // the seal is not the one of the text under the draw
    SealWrong = 12,
    // a subkey of the ring is no element's own number
    SubkeyTooLarge = 13,
    // a part of the record is missing
    RecordCutShort = 14,
    // the record's kind, field or count of subkeys is none that is defined
    Undefined = 15,
    // the buffer is too short for the record
    BufferTooShort = 16,
}

impl Refusal {
    pub fn number(self) -> u8
        ensures { result ≡ number_of self }
    {
        self as u8
    }
}

// "refused " and the number's two decimal digits
impl fmt::Display for Refusal {
    ghost output = { λ r. Some (printed r) };

    fn fmt<W: fmt::Write>(&self, f: &mut fmt::Formatter<W>) -> fmt::Result {
        let number = self.number();
        write!(f, "refused {number:02}")
    }
}
