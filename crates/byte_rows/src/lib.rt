// Little-endian numbers off the front of a row of bytes.
#![tactic(auto)]

ghost use Rattle.std.specs.Prelude.{◌≡◌, ℕ, ◌≤◌};
ghost use Rattle.std.proofs.Common.{lit≤};
ghost use Rattle.byte_rows.specs.Fronts.{front, read};
ghost use Rattle.byte_rows.specs.Numbers.{number};

// The most bytes that a text may have.
pub const LONGEST_TEXT: usize = 57_344;

// A number that N bytes make, the first of them the lowest.
pub trait LittleEndian<const N: usize>: Sized {
    // the whole number that a value is
    ghost value: { Self → ℕ };

    // numbers of a word at most
    ghost short: { N ≤ 8 };

    fn from_bytes(bytes: [u8; N]) -> Self
        ensures { value result ≡ number bytes.entry };
}

impl LittleEndian<1> for u8 {
    ghost value = { λ x. x };

    ghost short = { lit≤ tt };

    fn from_bytes(bytes: [u8; 1]) -> u8
        ensures { result ≡ number bytes }
    {
        u8::from_le_bytes(bytes)
    }
}

impl LittleEndian<2> for u16 {
    ghost value = { λ x. x };

    ghost short = { lit≤ tt };

    fn from_bytes(bytes: [u8; 2]) -> u16
        ensures { result ≡ number bytes }
    {
        u16::from_le_bytes(bytes)
    }
}

impl LittleEndian<8> for u64 {
    ghost value = { λ x. x };

    ghost short = { lit≤ tt };

    fn from_bytes(bytes: [u8; 8]) -> u64
        ensures { result ≡ number bytes }
    {
        u64::from_le_bytes(bytes)
    }
}

// The number at the front, and what follows it, or nothing where too few bytes are there.
pub fn take<T: LittleEndian<N>, const N: usize>(bytes: &[u8]) -> Option<(T, &[u8])>
    ensures { read T.LittleEndian.value result ≡ front N bytes.now }
{
    let (head, rest) = bytes.split_first_chunk::<N>()?;
    Some((T::from_bytes(*head), rest))
}
