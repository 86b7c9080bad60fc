// What a cipher is to the seal and to all that is built on it.
#![tactic(auto)]

ghost use Rattle.std.specs.Prelude.{◌≡◌};
ghost use Rattle.cipher.specs.declared.Block.{Block};
ghost use Rattle.cipher.specs.declared.Key.{Key};
ghost use Rattle.cipher.specs.Bytes.{pair_bytes, number_at};
ghost use Rattle.cipher.specs.Pairs.{key_bytes, key_of, block_bytes, block_of};

// Key and Block stay two types with the same fields and methods, so that a key is never taken for a block.

#[derive(Clone, Copy, PartialEq, Eq, Debug)]
pub struct Key {
    pub first: u64,
    pub second: u64,
}

#[derive(Clone, Copy, PartialEq, Eq, Debug)]
pub struct Block {
    pub first: u64,
    pub second: u64,
}

// A fixed function from a key and a block to a block. It never refuses, and using it changes no later answer.
pub trait Cipher {
    ghost function: { Self → Key → Block → Block };

    fn encipher(&mut self, key: Key, block: Block) -> Block
        ensures answer { result ≡ function self.old key block }
        ensures kept { function self.new ≡ function self.old };
}

// These stay methods and no From impls: within an expression `into` would need its type written beside it.

impl Key {
    pub fn to_bytes(self) -> [u8; 16]
        ensures bytes { result ≡ key_bytes self }
        ensures back { key_of result ≡ self }
    {
        pair_to_bytes(self.first, self.second)
    }

    pub fn from_bytes(bytes: [u8; 16]) -> Self
        ensures { result ≡ key_of bytes }
    {
        let (first, second) = pair_from_bytes(bytes);
        Key { first, second }
    }
}

impl Block {
    pub fn to_bytes(self) -> [u8; 16]
        ensures bytes { result ≡ block_bytes self }
        ensures back { block_of result ≡ self }
    {
        pair_to_bytes(self.first, self.second)
    }

    pub fn from_bytes(bytes: [u8; 16]) -> Self
        ensures { result ≡ block_of bytes }
    {
        let (first, second) = pair_from_bytes(bytes);
        Block { first, second }
    }
}

// Two numbers as 16 bytes: the first and then the second, highest byte first.
fn pair_to_bytes(first: u64, second: u64) -> [u8; 16]
    ensures bytes { result ≡ pair_bytes first second }
    ensures first { number_at 8 0 result ≡ first }
    ensures second { number_at 8 8 result ≡ second }
{
    let [a0, a1, a2, a3, a4, a5, a6, a7] = first.to_be_bytes();
    let [b0, b1, b2, b3, b4, b5, b6, b7] = second.to_be_bytes();
    [
        a0, a1, a2, a3, a4, a5, a6, a7, b0, b1, b2, b3, b4, b5, b6, b7,
    ]
}

fn pair_from_bytes(bytes: [u8; 16]) -> (u64, u64)
    ensures { result ≡ (number_at 8 0 bytes, number_at 8 8 bytes) }
{
    let [
        a0,
        a1,
        a2,
        a3,
        a4,
        a5,
        a6,
        a7,
        b0,
        b1,
        b2,
        b3,
        b4,
        b5,
        b6,
        b7,
    ] = bytes;
    (
        u64::from_be_bytes([a0, a1, a2, a3, a4, a5, a6, a7]),
        u64::from_be_bytes([b0, b1, b2, b3, b4, b5, b6, b7]),
    )
}
