// The fields that a number or a word can name, and the hash over the one that is named.
#![tactic(auto)]

ghost use Rattle.std.specs.Prelude.{◌≡◌};
ghost use Rattle.std.specs.Result.{result_ok};
ghost use Rattle.refusal.specs.Outcomes.{told};
ghost use Rattle.hash.specs.Hash.{hash_outcome};
ghost use Rattle.fields.specs.Names.{model_of, field_named, field_spelled};

use b63::B63;
use hash::hash;
use m61::M61;
use refusal::Refusal;
use std::str::FromStr;

#[derive(Clone, Copy, PartialEq, Eq, Debug)]
pub enum FieldName {
    M61,
    B63,
}

// 0 and 1; any other number is refused as undefined. The tables stand beside those of `CipherName`, which have other cases:
// a table is what such an impl is.
impl TryFrom<u8> for FieldName {
    type Error = Refusal;

    ghost try_from_gives = { λ number r. told r ≡ field_named number };

    fn try_from(number: u8) -> Result<FieldName, Refusal> {
        match number {
            0 => Ok(FieldName::M61),
            1 => Ok(FieldName::B63),
            _ => Err(Refusal::Undefined),
        }
    }
}

// A word that spells no field.
#[derive(Clone, Copy, PartialEq, Eq, Debug)]
pub struct UnknownField;

impl FromStr for FieldName {
    type Err = UnknownField;

    ghost from_str_gives = { λ word r. result_ok r ≡ field_spelled word };

    fn from_str(word: &str) -> Result<FieldName, UnknownField> {
        match word {
            "m61" => Ok(FieldName::M61),
            "b63" => Ok(FieldName::B63),
            _ => Err(UnknownField),
        }
    }
}

// One generic function with an arm for each field: a field is a type, so its name cannot be given as a parameter.
pub fn hash_over(field: FieldName, ring: &[u64], text: &[u8]) -> Result<u64, Refusal>
    ensures { told result ≡ hash_outcome (model_of field) ring.now text.now }
{
    match field {
        FieldName::M61 => hash::<M61>(ring, text),
        FieldName::B63 => hash::<B63>(ring, text),
    }
}
