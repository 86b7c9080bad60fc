// Why a line is no call.
ghost use Rattle.std.specs.Prelude.{◌≡◌, Some};
ghost use Rattle.script.specs.Reasons.{words_of};

use std::fmt;

#[derive(Clone, Copy, PartialEq, Eq, Debug)]
pub enum Reason {
    UnknownWord,
    WordMissing,
    WordsTooMany,
    NotAField,
    NotACipher,
    NotARing,
    NotAGrave,
    NotADraw,
    NotAKey,
    NotASeal,
    NotAText,
}

impl Reason {
    // What Display prints stands in a method of its own, since the words are a table and need no formatter.
    pub fn text(self) -> &'static str
        ensures { result.now ≡ words_of self }
    {
        match self {
            Reason::UnknownWord => "its first word is no call's name",
            Reason::WordMissing => "a word is missing",
            Reason::WordsTooMany => "there are words too many",
            Reason::NotAField => "a field is m61 or b63",
            Reason::NotACipher => "a cipher is noekeon or chaskey",
            Reason::NotARing => "a ring has 0 to 64 places",
            Reason::NotAGrave => "a grave is a number up to 65535",
            Reason::NotADraw => "a draw is a number",
            Reason::NotAKey => "a key has 32 hexadecimal digits",
            Reason::NotASeal => "a seal has 16 hexadecimal digits",
            Reason::NotAText => "a text is pairs of hexadecimal digits, - or quoted",
        }
    }
}

impl fmt::Display for Reason {
    ghost output = { λ w. Some (words_of w) };

    fn fmt<W: fmt::Write>(&self, f: &mut fmt::Formatter<W>) -> fmt::Result {
        let text = self.text();
        write!(f, "{text}")
    }
}
