// The cipher Chaskey: the key, twelve rounds of sums, rotations and differences, and the key again. No branch and no
// index depends on the key or the block.
#![tactic(auto)]

ghost use Rattle.std.specs.Prelude.{◌≡◌};
ghost use Rattle.chaskey.specs.Order.{words_of, bytes_of};
ghost use Rattle.chaskey.specs.Chaskey.{keyed, round_of, permuted, chaskey};

use cipher::{Block, Cipher, Key};
use std::ops::BitXor;

// The state, or the key.
// Stays beside the Words of Noekeon: the names, and the order of bytes in a word, are published for each cipher.
#[derive(Clone, Copy, PartialEq, Eq, Debug)]
pub struct Words {
    pub v0: u32,
    pub v1: u32,
    pub v2: u32,
    pub v3: u32,
}

// The words of 16 bytes, each of four, the lowest first.
impl From<[u8; 16]> for Words {
    ghost from_gives = { λ bytes words. words ≡ words_of bytes };

    fn from(bytes: [u8; 16]) -> Words {
        Words {
            v0: u32::from_le_bytes([bytes[0], bytes[1], bytes[2], bytes[3]]),
            v1: u32::from_le_bytes([bytes[4], bytes[5], bytes[6], bytes[7]]),
            v2: u32::from_le_bytes([bytes[8], bytes[9], bytes[10], bytes[11]]),
            v3: u32::from_le_bytes([bytes[12], bytes[13], bytes[14], bytes[15]]),
        }
    }
}

impl From<Words> for [u8; 16] {
    ghost from_gives = { λ words bytes. bytes ≡ bytes_of words };

    fn from(words: Words) -> [u8; 16] {
        let [b0, b1, b2, b3] = words.v0.to_le_bytes();
        let [b4, b5, b6, b7] = words.v1.to_le_bytes();
        let [b8, b9, b10, b11] = words.v2.to_le_bytes();
        let [b12, b13, b14, b15] = words.v3.to_le_bytes();
        [
            b0, b1, b2, b3, b4, b5, b6, b7, b8, b9, b10, b11, b12, b13, b14, b15,
        ]
    }
}

impl BitXor for Words {
    type Output = Words;

    ghost bitxor_gives = { λ v k result. result ≡ keyed k v };

    fn bitxor(self, other: Words) -> Words {
        Words {
            v0: self.v0 ^ other.v0,
            v1: self.v1 ^ other.v1,
            v2: self.v2 ^ other.v2,
            v3: self.v3 ^ other.v3,
        }
    }
}

#[tactic(auto, unfolding(crate::specs::Chaskey::round_of))]
fn round(v: Words) -> Words
    ensures { result ≡ round_of v }
{
    let Words {
        mut v0,
        mut v1,
        mut v2,
        mut v3,
    } = v;
    v0 = v0.wrapping_add(v1);
    v1 = v1.rotate_left(5);
    v1 ^= v0;
    v0 = v0.rotate_left(16);
    v2 = v2.wrapping_add(v3);
    v3 = v3.rotate_left(8);
    v3 ^= v2;
    v0 = v0.wrapping_add(v3);
    v3 = v3.rotate_left(13);
    v3 ^= v0;
    v2 = v2.wrapping_add(v1);
    v1 = v1.rotate_left(7);
    v1 ^= v2;
    v2 = v2.rotate_left(16);
    Words { v0, v1, v2, v3 }
}

const ROUNDS: u32 = 12;

// The twelve rounds alone, without a key.
#[tactic(auto, unfolding(crate::specs::Chaskey::permuted))]
pub fn permute(words: Words) -> Words
    ensures { result ≡ permuted words }
{
    let mut v = words;
    for _ in 0..ROUNDS {
        v = round(v);
    }
    v
}

#[derive(Clone, Copy)]
pub struct Chaskey;

impl Cipher for Chaskey {
    ghost function = { λ _. chaskey };

    #[tactic(auto, unfolding(crate::specs::Chaskey::chaskey))]
    fn encipher(&mut self, key: Key, block: Block) -> Block {
        let k = Words::from(key.to_bytes());
        let v = Words::from(block.to_bytes());
        let enciphered = permute(v ^ k) ^ k;
        Block::from_bytes(enciphered.into())
    }
}
