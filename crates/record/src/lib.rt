// Records: the frame that every kind shares, and the kinds.
#![tactic(auto)]

ghost use Rattle.std.specs.Prelude.{◌≡◌};
ghost use Rattle.std.specs.Result.{result_ok};
ghost use Rattle.record.specs.Kinds.{number_of, kind_named};
ghost use Rattle.record.specs.Records.{record_of, parts};

// What a record holds.
#[derive(Clone, Copy, PartialEq, Eq, Debug)]
pub enum Kind {
    SealedSheet = 1,
    HashRequest = 2,
}

impl Kind {
    pub fn number(self) -> u16
        ensures { result ≡ number_of self }
    {
        self as u16
    }
}

// A number that stands for no kind.
#[derive(Clone, Copy, PartialEq, Eq, Debug)]
pub struct UnknownKind;

impl TryFrom<u16> for Kind {
    type Error = UnknownKind;

    ghost try_from_gives = { λ number r. result_ok r ≡ kind_named number };

    fn try_from(number: u16) -> Result<Kind, UnknownKind> {
        match number {
            1 => Ok(Kind::SealedSheet),
            2 => Ok(Kind::HashRequest),
            _ => Err(UnknownKind),
        }
    }
}

#[derive(Clone, Copy)]
pub struct Record<'a> {
    // the kind's number; a frame is read whether or not a kind has it
    pub kind: u16,
    // what follows the kind within the record
    pub body: &'a [u8],
    // what follows the record
    pub rest: &'a [u8],
}

// The record at the front of the input, or nothing where its length or its kind is cut short.
pub fn read_record(input: &[u8]) -> Option<Record<'_>>
    ensures { parts result ≡ record_of input.now }
{
    let [l0, l1, l2, l3, k0, k1, parts @ ..] = input else {
        return None;
    };
    let length = u32::from_le_bytes([*l0, *l1, *l2, *l3]) as usize;
    let kind = u16::from_le_bytes([*k0, *k1]);
    if length < 2 || parts.len() < length - 2 {
        return None;
    }
    let (body, rest) = parts.split_at(length - 2);
    Some(Record { kind, body, rest })
}
