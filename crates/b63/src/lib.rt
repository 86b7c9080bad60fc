// B63: polynomials in z over the field of two elements, modulo z^63 + z + 1. Bit i of a number is the coefficient of
// z^i. No branch and no index depends on an operand.
#![tactic(auto)]

ghost use Rattle.std.specs.Prelude.{◌≡◌, ◌*◌, ◌/◌, ◌%◌, ◌^◌, ◌<◌};
ghost use Rattle.b63.specs.Binary.{b63, by_z_power, means63, times63, Remainder};
ghost use Rattle.std.proofs.Common.{mod-lt, mod-eq_of_lt, lit<, lit≤};
ghost use Rattle.std.specs.Int.Bits.{xor_zero_r, xor_self, xor_assoc};
ghost use Rattle.std.proofs.lemmas.Nat.{xor_comm, xor_lt};
ghost use Rattle.b63.specs.Product.{rows_lt, times_one, times_comm, times_assoc, times_plus};

use field::Field;

// The 63 coefficients of an element.
const LOW: u64 = 0x7fff_ffff_ffff_ffff;

// z^j times `x`. The j highest coefficients come to z^63 and above; since z^63 is z + 1, they are added at the bottom,
// and once more one place up.
fn by_power(j: u32, x: u64) -> u64
    requires { (j < 63) × (x < 2 ^ 63) }
    ensures { result ≡ by_z_power j x }
{
    let top = x >> (63 - j);
    ((x << j) & LOW) ^ top ^ (top << 1)
}

// Coefficient i of `x`, times `y`: all bits of `y`, or none.
fn row(x: u64, i: u32, y: u64) -> u64
    requires { i < 64 }
    ensures { result ≡ (x / 2 ^ i % 2) * y }
{
    0u64.wrapping_sub((x >> i) & 1) & y
}

// The product of two elements, from the highest coefficients of `x` down, four at a time.
fn multiply(x: u64, y: u64) -> u64
    requires { (x < 2 ^ 63) × (y < 2 ^ 63) }
    ensures { result ≡ times63 x y }
{
    let yz = by_power(1, y);
    let yz2 = by_power(2, y);
    let yz3 = by_power(3, y);
    let mut r = 0;
    // By a range: the coefficients are bits of one number, and no slice has them.
    for i in (0..16u32).rev() {
        let four = x >> (4 * i);
        let rows = row(four, 0, y) ^ row(four, 1, yz) ^ row(four, 2, yz2) ^ row(four, 3, yz3);
        r = by_power(4, r) ^ rows;
    }
    r
}

pub struct B63;

impl Field for B63 {
    ghost model = { b63 };

    ghost holds = { record {
      many = lit< tt;
      few = lit≤ tt;
      means_below = λ x. mod-lt x (lit< tt);
      means_own = λ a h. mod-eq_of_lt h;
      plus_below = λ a b ha hb. xor_lt 63 a b ha hb;
      plus_comm = λ a b ha hb. xor_comm a b;
      plus_assoc = λ a b c ha hb hc. xor_assoc a b c;
      plus_zero = λ a h. xor_zero_r a;
      neg_below = λ a h. h;
      plus_neg = λ a h. xor_self a;
      times_below = λ a b ha hb. rows_lt 63 a b hb;
      times_comm = times_comm;
      times_assoc = times_assoc;
      times_one = times_one;
      times_plus = λ a b c ha hb hc. times_plus a b c;
    } };

    fn order() -> u64 {
        1 << 63
    }

    fn sum(a: u64, b: u64) -> u64 {
        a ^ b
    }

    fn product(a: u64, b: u64) -> u64
        ensures element { means63 result ≡ b63.times (means63 a) (means63 b) }
        ensures remainder { Remainder (means63 a) (means63 b) (means63 result) }
    {
        multiply(a & LOW, b & LOW)
    }

    fn reduce(x: u64) -> u64 {
        x & LOW
    }
}
