// What a hash record asks for, and the answer to it.
ghost use Rattle.std.specs.Prelude.{◌≡◌, true, length, is_some};
ghost use Rattle.refusal.specs.Outcomes.{told};
ghost use Rattle.listing.specs.Requests.{subkeys, request_outcome};
ghost use Rattle.listing.specs.Lines.{seen};
ghost use Rattle.listing.specs.Names.{subkeys_read};

use byte_rows::take;
use fields::{FieldName, hash_over};
use record::Kind;
use refusal::Refusal;

const MOST_SUBKEYS: usize = 8;

// Fills the ring's places with the subkeys at the front of the bytes, and gives what follows them.
fn take_subkeys<'a>(ring: &mut [u64], bytes: &'a [u8]) -> Option<&'a [u8]>
    ensures rest { seen result ≡ subkeys_read (length ring.old) bytes.now }
    ensures ring { is_some result ≡ true → ring.new ≡ subkeys (length ring.old) bytes.now }
{
    let mut rest = bytes;
    for place in ring.iter_mut() {
        let (subkey, more) = take::<u64, 8>(rest)?;
        *place = subkey;
        rest = more;
    }
    Some(rest)
}

// The answer to a record of this kind and body.
pub fn answer(kind: u16, body: &[u8]) -> Result<u64, Refusal>
    ensures { told result ≡ request_outcome kind body.now }
{
    let Ok(Kind::HashRequest) = Kind::try_from(kind) else {
        return Err(Refusal::Undefined);
    };
    // By the project's rule a chain of let .. else takes the parts, as in the sheet's reader.
    let Some((field, after_field)) = take::<u8, 1>(body) else {
        return Err(Refusal::RecordCutShort);
    };
    let Some((count, after_count)) = take::<u8, 1>(after_field) else {
        return Err(Refusal::RecordCutShort);
    };
    let field = FieldName::try_from(field)?;
    let count = usize::from(count);
    if count > MOST_SUBKEYS {
        return Err(Refusal::Undefined);
    }
    // The ring lies on the stack, as many of eight places as the record says, so that no answer needs the heap.
    let mut places = [0; MOST_SUBKEYS];
    let ring = &mut places[0..count];
    let Some(text) = take_subkeys(ring, after_count) else {
        return Err(Refusal::RecordCutShort);
    };
    hash_over(field, ring, text)
}
