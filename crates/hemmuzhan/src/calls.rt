// The calls that leave their answer where they are told, with field and cipher named by number.
ghost use Rattle.std.specs.Prelude.{◌≡◌, length, replicate};
ghost use Rattle.refusal.specs.Outcomes.{told};
ghost use Rattle.fields.specs.Fields.{field_called, hash_over_field};
ghost use Rattle.hemmuzhan.specs.Calls.{sealed_outcome, checked_outcome, status, verdict, seal_after};
ghost use Rattle.hemmuzhan.specs.Values.{value_after};

use crate::suite::Suite;
use fields::{FieldName, hash_over};
use refusal::Refusal;
use seal::{Claim, Key, Wipe};

// Writes the text's hash under the ring to `hash`.
pub fn hash_into(field: u8, ring: &[u64], text: &[u8], hash: &mut u64) -> Result<(), Refusal>
    ensures answer { status (told result) ≡ status (hash_over_field (field_called field) ring.now text.now) }
    ensures hash { hash.new ≡ value_after (hash_over_field (field_called field) ring.now text.now) hash.old }
{
    *hash = hash_over(FieldName::try_from(field)?, ring, text)?;
    Ok(())
}

// Writes the seal of the text to the first place of `seal`. The ring list ends as zeros, whichever way the call ends.
pub fn seal_into(
    field: u8,
    cipher: u8,
    key: Key,
    draw: u64,
    text: &[u8],
    ring: &mut [u64],
    seal: &mut [u64],
) -> Result<(), Refusal>
    ensures answer { status (told result) ≡ status (sealed_outcome field cipher key draw text.now (length ring.old) (length seal.old)) }
    ensures seal { seal.new ≡ seal_after (sealed_outcome field cipher key draw text.now (length ring.old) (length seal.old)) seal.old }
    ensures zeros { ring.new ≡ replicate (length ring.old) 0 }
{
    let guard = Wipe { ring };
    let suite = Suite::named(field, cipher)?;
    if seal.is_empty() {
        return Err(Refusal::BufferTooShort);
    }
    seal[0] = suite.seal(key, draw, text, guard.ring)?;
    Ok(())
}

// A seal that is not the text's is refused. The ring list ends as zeros, whichever way the call ends.
pub fn accept(
    field: u8,
    cipher: u8,
    key: Key,
    claim: Claim<'_>,
    ring: &mut [u64],
) -> Result<(), Refusal>
    ensures answer { status (told result) ≡ verdict (checked_outcome field cipher key claim.entry.draw claim.entry.text.now claim.entry.seal (length ring.old)) }
    ensures zeros { ring.new ≡ replicate (length ring.old) 0 }
{
    let wiping = Wipe { ring };
    let suite = Suite::named(field, cipher)?;
    if suite.check(key, claim, wiping.ring)? {
        Ok(())
    } else {
        Err(Refusal::SealWrong)
    }
}
