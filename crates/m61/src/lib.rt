// M61: whole numbers modulo the prime 2^61 - 1. Since 2^61 means 1, the bits from 61 up are added back at the bottom.
#![tactic(auto)]

ghost use Rattle.std.specs.Prelude.{◌≡◌, ℕ, ◌+◌, ◌-◌, ◌*◌, ◌^◌, ◌≤◌};
ghost use Rattle.field.specs.WeightedSums.{weighted_sum};
ghost use Rattle.m61.specs.Mersenne.{m61, means61, prime};
ghost use Rattle.std.proofs.Common.{lit<, lit≤};
ghost use Rattle.field.proofs.ModularLaws.{modulo_laws};

use field::Field;
use std::marker::Model;

const PRIME: u64 = 0x1fff_ffff_ffff_ffff;

// A number that is at most a little above the prime, so that two of them can be multiplied.
#[derive(Drop)]
struct Folded {
    value: u64,
    ghost small: { value ≤ 2 ^ 61 + 6 },
}

// A smaller number that means the same.
fn fold(x: u64) -> Folded
    ensures { means61 result.value ≡ means61 x }
{
    Folded {
        value: (x >> 61) + (x & PRIME),
    }
}

// The one multiplication of whole numbers: both factors are below 2^32, so that the product fits one word.
fn multiply(a: u32, b: u32) -> u64
    ensures { result ≡ a * b }
{
    u64::from(a) * u64::from(b)
}

// The two halves, of 32 bits each.
struct Limbs {
    high: u32,
    low: u32,
}

impl From<Folded> for Limbs {
    ghost from_gives = { λ x limbs. limbs.high * 2 ^ 32 + limbs.low ≡ x.value };

    fn from(x: Folded) -> Limbs {
        Limbs {
            high: (x.value >> 32) as u32,
            low: (x.value & 0xffff_ffff) as u32,
        }
    }
}

// A number too wide for a word, high * 2^64 + middle * 2^32 + low, as large as up to four products can make it, added
// part by part: N of them.
#[derive(Drop)]
struct Wide<const N: u64> {
    high: u64,
    middle: u64,
    low: u64,
}

impl<const N: u64> Model for Wide<N> {
    ghost Value = { ℕ };

    ghost view = { λ w. w.high * 2 ^ 64 + w.middle * 2 ^ 32 + w.low };

    ghost invariant = { λ w.
        (N ≤ 4) × (w.high ≤ N * 2 ^ 58) × (w.middle ≤ N * (2 ^ 62 - 1)) × (w.low ≤ N * (2 ^ 61 + 6)) };
}

// A wide number that means the product of what the two mean. Its low part is folded, so that four such fit when they
// are added part by part.
fn wide_product(x: u64, y: u64) -> Wide<1>
    ensures { means61 result ≡ m61.times (means61 x) (means61 y) }
{
    let Limbs { high: a, low: b } = Limbs::from(fold(x));
    let Limbs { high: c, low: d } = Limbs::from(fold(y));
    Wide {
        high: multiply(a, c),
        middle: multiply(a, d) + multiply(b, c),
        low: fold(multiply(b, d)).value,
    }
}

fn add_four(a: Wide<1>, b: Wide<1>, c: Wide<1>, d: Wide<1>) -> Wide<4>
    ensures { result ≡ (a + b) + (c + d) }
{
    Wide {
        high: a.high + b.high + c.high + d.high,
        middle: a.middle + b.middle + c.middle + d.middle,
        low: a.low + b.low + c.low + d.low,
    }
}

// A number that means the same as the wide one: 2^64 means 8, and 2^29 * 2^32 means 1.
fn fold_wide<const N: u64>(wide: Wide<N>) -> Folded
    ensures { means61 result.value ≡ means61 wide.entry }
{
    let Wide { high, middle, low } = wide;
    // Of four products the high part is folded by itself, or the sum would not fit.
    let top = if N < 4 {
        high << 3
    } else {
        fold(high << 3).value
    };
    let middle_high = middle >> 29;
    let middle_low = (middle & 0x1fff_ffff) << 32;
    fold(top + middle_high + middle_low + low)
}

pub struct M61;

impl Field for M61 {
    ghost model = { m61 };

    ghost holds = { modulo_laws prime (lit< tt) (lit≤ tt) };

    fn order() -> u64 {
        PRIME
    }

    // `small` stays in three contracts, since a field gives and takes plain words.
    fn sum(a: u64, b: u64) -> u64
        ensures element { means61 result ≡ m61.plus (means61 a) (means61 b) }
        ensures small { result ≤ 2 ^ 61 + 6 }
    {
        fold(fold(a).value + fold(b).value).value
    }

    fn product(a: u64, b: u64) -> u64
        ensures element { means61 result ≡ m61.times (means61 a) (means61 b) }
        ensures small { result ≤ 2 ^ 61 + 6 }
    {
        fold_wide(wide_product(a, b)).value
    }

    // The products are added while they are wide, and folded once.
    fn weighted_sum(numbers: [u64; 4], weights: [u64; 4]) -> u64
        ensures element { means61 result ≡ weighted_sum m61 numbers weights }
        ensures small { result ≤ 2 ^ 61 + 6 }
    {
        let [a, b, c, d] = numbers;
        let [s, t, u, v] = weights;
        let sum = add_four(
            wide_product(a, s),
            wide_product(b, t),
            wide_product(c, u),
            wide_product(d, v),
        );
        fold_wide(sum).value
    }

    // A folded number is the prime or above exactly if one more reaches 2^61; then the carry is 1, and adding it and
    // dropping bit 61 takes the prime away. No branch tells which.
    #[tactic(auto, using(crate::proofs::Carried::carried))]
    fn reduce(x: u64) -> u64
        ensures { result ≡ means61 x }
    {
        let Folded { value: y } = fold(x);
        let carry = (y + 1) >> 61;
        (y + carry) & PRIME
    }
}
