// A field and a cipher: what a seal is made over. That the ring list ends as zeros is said by each call that is lent one,
// since no type can say what a `&mut` leaves. A field is a type, so the two calls have an arm for each field.
ghost use Rattle.std.specs.Prelude.{◌≡◌, length, replicate};
ghost use Rattle.refusal.specs.Outcomes.{told};
ghost use Rattle.seal.specs.Sealing.{seal_outcome, check_outcome};
ghost use Rattle.hemmuzhan.specs.Suites.{sealing_of, suite_outcome};

use b63::B63;
use ciphers::CipherName;
use fields::FieldName;
use m61::M61;
use seal::{Claim, Key, Refusal, check_seal, seal_text};

#[derive(Clone, Copy, PartialEq, Eq, Debug)]
pub struct Suite {
    pub field: FieldName,
    pub cipher: CipherName,
}

impl Suite {
    // The field and the cipher that two numbers name.
    pub fn named(field: u8, cipher: u8) -> Result<Suite, Refusal>
        ensures { told result ≡ suite_outcome field cipher }
    {
        Ok(Suite {
            field: FieldName::try_from(field)?,
            cipher: CipherName::try_from(cipher)?,
        })
    }

    // The seal of the text. The ring list ends as zeros, whichever way the call ends.
    pub fn seal(self, key: Key, draw: u64, text: &[u8], ring: &mut [u64]) -> Result<u64, Refusal>
        ensures answer { told result ≡ seal_outcome (sealing_of self) key draw text.now (length ring.old) }
        ensures zeros { ring.new ≡ replicate (length ring.old) 0 }
    {
        let Suite { field, mut cipher } = self;
        match field {
            FieldName::M61 => seal_text::<M61, CipherName>(&mut cipher, key, draw, text, ring),
            FieldName::B63 => seal_text::<B63, CipherName>(&mut cipher, key, draw, text, ring),
        }
    }

    // Whether a seal is the text's. The ring list ends as zeros, whichever way the call ends.
    pub fn check(self, key: Key, claim: Claim<'_>, ring: &mut [u64]) -> Result<bool, Refusal>
        ensures answer { told result ≡ check_outcome (sealing_of self) key claim.entry.draw claim.entry.text.now claim.entry.seal (length ring.old) }
        ensures zeros { ring.new ≡ replicate (length ring.old) 0 }
    {
        let Suite { field, mut cipher } = self;
        match field {
            FieldName::M61 => { check_seal::<M61, CipherName>(&mut cipher, key, claim, ring) }
            FieldName::B63 => { check_seal::<B63, CipherName>(&mut cipher, key, claim, ring) }
        }
    }
}
