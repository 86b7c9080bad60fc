// What hexadecimal digits stand for.
ghost use Rattle.std.specs.Prelude.{◌≡◌, ◌<◌, IfSome};
ghost use Rattle.script.specs.Digits.{digit_value, pair_value, pairs};
ghost use Rattle.script.specs.Heard.{Heard};
ghost use Rattle.script.specs.Numbers.{exact, the_seal_of, key_named};
ghost use Rattle.script.specs.Parts.{bytes_or, text_of};

use crate::fault::Fault;
use crate::reason::Reason;
use cipher::Key;
use std::alloc::Global;

const KEY_DIGITS: usize = 32;

const SEAL_DIGITS: usize = 16;

// Just so many bytes, and no sign in front.
fn is_exact(word: &str, digits: usize) -> bool
    ensures { result ≡ exact digits word.now }
{
    word.len() == digits && !word.starts_with('+')
}

// A key's bytes, the first of them first.
#[tactic(auto, using(crate::proofs::Numbered::parsed), unfolding(crate::specs::Numbers::key_named))]
pub fn key_of(word: &str) -> Option<Key>
    ensures { result ≡ key_named word.now }
{
    if !is_exact(word, KEY_DIGITS) {
        return None;
    }
    let key = u128::from_str_radix(word, 16).ok()?;
    Some(Key::from_bytes(key.to_be_bytes()))
}

#[tactic(auto, using(crate::proofs::Numbered::parsed), unfolding(crate::specs::Numbers::the_seal_of))]
pub fn seal_of(word: &str) -> Option<u64>
    ensures { result ≡ the_seal_of word.now }
{
    if !is_exact(word, SEAL_DIGITS) {
        return None;
    }
    u64::from_str_radix(word, 16).ok()
}

// The value of a hexadecimal digit.
fn hex_digit(byte: u8) -> Option<u32>
    ensures value { result ≡ digit_value byte }
    ensures below { IfSome result (λ d. d < 16) }
{
    char::from(byte).to_digit(16)
}

fn byte_of(high: u8, low: u8) -> Option<u8>
    ensures { result ≡ pair_value high low }
{
    let high = hex_digit(high)?;
    let low = hex_digit(low)?;
    Some((16 * high + low) as u8)
}

// The bytes that pairs of digits stand for.
fn hex_bytes(heap: Global, digits: &[u8]) -> Result<Vec<u8>, Fault>
    ensures { Heard (λ v. v.items) result (bytes_or (pairs digits.now)) }
{
    let mut bytes = Vec::new(heap);
    let mut rest = digits;
    // The pattern takes two off the front, so no index is counted, and an odd one is what is left.
    while let [high, low, after @ ..] = rest {
        bytes.push(byte_of(*high, *low).ok_or(Reason::NotAText)?)?;
        rest = after;
    }
    if !rest.is_empty() {
        return Err(Fault::NotACall(Reason::NotAText));
    }
    Ok(bytes)
}

// The text that a word stands for: `-` for the empty one, or hexadecimal digits.
#[tactic(auto, using(crate::proofs::Hearing::heard_as), unfolding(crate::specs::Parts::text_of))]
pub fn text_of(heap: Global, word: &str) -> Result<Vec<u8>, Fault>
    ensures { Heard (λ v. v.items) result (bytes_or (text_of word.now)) }
{
    if word == "-" {
        return Ok(Vec::new(heap));
    }
    hex_bytes(heap, word.as_bytes())
}
