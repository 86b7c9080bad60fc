// The ciphers that a number or a word can name.
#![tactic(auto)]

ghost use Rattle.std.specs.Prelude.{◌≡◌};
ghost use Rattle.std.specs.Result.{result_ok};
ghost use Rattle.refusal.specs.Outcomes.{told};
ghost use Rattle.ciphers.specs.Ciphers.{function_of, cipher_named, cipher_spelled};

use chaskey::Chaskey;
use cipher::{Block, Cipher, Key};
use noekeon::Noekeon;
use refusal::Refusal;
use std::str::FromStr;

#[derive(Clone, Copy, PartialEq, Eq, Debug)]
pub enum CipherName {
    Noekeon,
    Chaskey,
}

// 0 and 1; any other number is refused as undefined. The tables stand beside those of `FieldName`, which have other cases: a
// table is what such an impl is.
impl TryFrom<u8> for CipherName {
    type Error = Refusal;

    ghost try_from_gives = { λ number r. told r ≡ cipher_named number };

    fn try_from(number: u8) -> Result<CipherName, Refusal> {
        match number {
            0 => Ok(CipherName::Noekeon),
            1 => Ok(CipherName::Chaskey),
            _ => Err(Refusal::Undefined),
        }
    }
}

// A word that spells no cipher.
#[derive(Clone, Copy, PartialEq, Eq, Debug)]
pub struct UnknownCipher;

impl FromStr for CipherName {
    type Err = UnknownCipher;

    ghost from_str_gives = { λ word r. result_ok r ≡ cipher_spelled word };

    fn from_str(word: &str) -> Result<CipherName, UnknownCipher> {
        match word {
            "noekeon" => Ok(CipherName::Noekeon),
            "chaskey" => Ok(CipherName::Chaskey),
            _ => Err(UnknownCipher),
        }
    }
}

// A name enciphers as the cipher that it names, so that code over any cipher can be given one that is named at run time.
impl Cipher for CipherName {
    ghost function = { function_of };

    fn encipher(&mut self, key: Key, block: Block) -> Block {
        match self {
            CipherName::Noekeon => Noekeon.encipher(key, block),
            CipherName::Chaskey => Chaskey.encipher(key, block),
        }
    }
}
