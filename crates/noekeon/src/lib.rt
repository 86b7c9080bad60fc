// The cipher Noekeon in its direct-key mode, its steps under their published names. No branch and no index depends on
// the key or the block.
#![tactic(auto)]

ghost use Rattle.std.specs.Prelude.{◌≡◌, ◌+◌, ◌*◌, ◌/◌, ◌%◌, ◌^◌};
ghost use Rattle.noekeon.specs.Noekeon.{words_of, block_of, with_constant, round_of, rounds_of, enciphered_of, noekeon};
ghost use Rattle.noekeon.specs.Steps.{spread_of, theta_of, pi1_of, pi2_of, gamma_of};

use cipher::{Block, Cipher, Key};

// The state, or the key.
// Stays beside the Words of Chaskey: the names, and the order of bytes in a word, are published for each cipher.
#[derive(Clone, Copy)]
struct Words {
    a0: u32,
    a1: u32,
    a2: u32,
    a3: u32,
}

impl From<Key> for Words {
    ghost from_gives = { λ key words. words ≡ words_of key.first key.second };

    fn from(key: Key) -> Words {
        halves(key.first, key.second)
    }
}

impl From<Block> for Words {
    ghost from_gives = { λ block words. words ≡ words_of block.first block.second };

    fn from(block: Block) -> Words {
        halves(block.first, block.second)
    }
}

impl From<Words> for Block {
    ghost from_gives = { λ words block. block ≡ block_of words };

    fn from(words: Words) -> Block {
        Block {
            first: joined(words.a0, words.a1),
            second: joined(words.a2, words.a3),
        }
    }
}

// The halves of two numbers, the high one first.
fn halves(first: u64, second: u64) -> Words
    ensures { result ≡ words_of first second }
{
    Words {
        a0: high(first),
        a1: low(first),
        a2: high(second),
        a3: low(second),
    }
}

// M61 halves its words too: a crate that both build on, for two shifts, would be no plainer.
fn high(x: u64) -> u32
    ensures { result ≡ x / 2 ^ 32 }
{
    (x >> 32) as u32
}

fn low(x: u64) -> u32
    ensures { result ≡ x % 2 ^ 32 }
{
    (x & 0xffff_ffff) as u32
}

fn joined(high: u32, low: u32) -> u64
    ensures { result ≡ high * 2 ^ 32 + low }
{
    (u64::from(high) << 32) + u64::from(low)
}

fn spread(u: u32) -> u32
    ensures { result ≡ spread_of u }
{
    u ^ u.rotate_left(8) ^ u.rotate_right(8)
}

#[tactic(auto, unfolding(crate::specs::Steps::theta_of))]
fn theta(k: Words, a: Words) -> Words
    ensures { result ≡ theta_of k a }
{
    let Words {
        mut a0,
        mut a1,
        mut a2,
        mut a3,
    } = a;
    let t = spread(a0 ^ a2);
    a1 ^= t;
    a3 ^= t;
    a0 ^= k.a0;
    a1 ^= k.a1;
    a2 ^= k.a2;
    a3 ^= k.a3;
    let t = spread(a1 ^ a3);
    a0 ^= t;
    a2 ^= t;
    Words { a0, a1, a2, a3 }
}

// Stays beside pi2, which undoes it: the two are published under these names.
#[tactic(auto, unfolding(crate::specs::Steps::pi1_of))]
fn pi1(a: Words) -> Words
    ensures { result ≡ pi1_of a }
{
    Words {
        a0: a.a0,
        a1: a.a1.rotate_left(1),
        a2: a.a2.rotate_left(5),
        a3: a.a3.rotate_left(2),
    }
}

#[tactic(auto, unfolding(crate::specs::Steps::gamma_of))]
fn gamma(a: Words) -> Words
    ensures { result ≡ gamma_of a }
{
    let Words {
        mut a0,
        mut a1,
        mut a2,
        mut a3,
    } = a;
    a1 ^= !a3 & !a2;
    a0 ^= a2 & a1;
    (a0, a3) = (a3, a0);
    a2 ^= a0 ^ a1 ^ a3;
    a1 ^= !a3 & !a2;
    a0 ^= a2 & a1;
    Words { a0, a1, a2, a3 }
}

#[tactic(auto, unfolding(crate::specs::Steps::pi2_of))]
fn pi2(a: Words) -> Words
    ensures { result ≡ pi2_of a }
{
    Words {
        a0: a.a0,
        a1: a.a1.rotate_right(1),
        a2: a.a2.rotate_right(5),
        a3: a.a3.rotate_right(2),
    }
}

fn add_constant(constant: u32, a: Words) -> Words
    ensures { result ≡ with_constant constant a }
{
    Words {
        a0: a.a0 ^ constant,
        ..a
    }
}

#[tactic(auto, unfolding(crate::specs::Noekeon::round_of))]
fn round(k: Words, a: Words, constant: u32) -> Words
    ensures { result ≡ round_of k a constant }
{
    pi2(gamma(pi1(theta(k, add_constant(constant, a)))))
}

// The constants of the sixteen rounds, and that of the step behind them.
const ROUND_CONSTANTS: [u32; 16] = [
    0x80, 0x1b, 0x36, 0x6c, 0xd8, 0xab, 0x4d, 0x9a, 0x2f, 0x5e, 0xbc, 0x63, 0xc6, 0x97, 0x35, 0x6a,
];

const LAST_CONSTANT: u32 = 0xd4;

fn rounds(k: Words, block: Words, constants: &[u32]) -> Words
    ensures { result ≡ rounds_of k block constants.now }
{
    constants
        .iter()
        .fold(block, |a, constant| round(k, a, *constant))
}

#[tactic(auto, unfolding(crate::specs::Noekeon::enciphered_of))]
fn enciphered(k: Words, block: Words) -> Words
    ensures { result ≡ enciphered_of k block }
{
    let a = rounds(k, block, &ROUND_CONSTANTS);
    theta(k, add_constant(LAST_CONSTANT, a))
}

#[derive(Clone, Copy)]
pub struct Noekeon;

impl Cipher for Noekeon {
    ghost function = { λ _. noekeon };

    #[tactic(auto, unfolding(crate::specs::Noekeon::noekeon))]
    fn encipher(&mut self, key: Key, block: Block) -> Block {
        Block::from(enciphered(Words::from(key), Words::from(block)))
    }
}
