// The MAC Chaskey-12, for which test vectors are published: whole blocks go through the rounds, and the last through
// the cipher, under a key made from the MAC's.
ghost use Rattle.std.specs.Prelude.{◌≡◌, ℕ, ◌<◌, slice_index};
ghost use Rattle.vectors.specs.Mac.{doubled, permuted_number, byte_at, block_at, subkey_of, mac_of};

use chaskey::{Chaskey, Words, permute};
use cipher::{Block, Cipher, Key};
use std::array;

// A block is a number of 128 bits here, its first byte the lowest. This is its product with x, as polynomials over the
// bits modulo x^128 + x^7 + x^2 + x + 1.
pub fn times_two(a: u128) -> u128
    ensures { result ≡ doubled a }
{
    (a << 1) ^ ((a >> 127) * 0x87)
}

fn permuted(x: u128) -> u128
    ensures { result ≡ permuted_number x }
{
    let words = permute(Words::from(x.to_le_bytes()));
    u128::from_le_bytes(words.into())
}

// A byte of a part and of what fills it up behind: a byte 1, and zeros.
fn byte_at(part: &[u8], place: usize) -> u8
    ensures { result ≡ byte_at part.now place }
{
    match part.get(place) {
        Some(byte) => *byte,
        None if place == part.len() => 1,
        None => 0,
    }
}

// The first 16 of these bytes.
fn filled(part: &[u8]) -> [u8; 16]
    ensures { (i : ℕ) → i < 16 → slice_index result i ≡ byte_at part.now i }
{
    array::from_fn(|i| byte_at(part, i))
}

#[tactic(auto, using(crate::proofs::Bytes::filled_block))]
fn block(part: &[u8]) -> u128
    ensures { result ≡ block_at part.now 0 }
{
    u128::from_le_bytes(filled(part))
}

// The key of the last block.
fn subkey(key: u128, whole: bool) -> u128
    ensures { result ≡ subkey_of key whole }
{
    let once = times_two(key);
    if whole { once } else { times_two(once) }
}

pub fn mac(key: u128, message: &[u8]) -> Block
    ensures { result ≡ mac_of key message.now }
{
    let before = 16 * (message.len().saturating_sub(1) / 16);
    let (front, last) = message.split_at(before);
    let mut state = key;
    for part in front.chunks(16) {
        state = permuted(state ^ block(part));
    }
    let under = Key::from_bytes(subkey(key, last.len() == 16).to_le_bytes());
    Chaskey.encipher(
        under,
        Block::from_bytes((state ^ block(last)).to_le_bytes()),
    )
}
