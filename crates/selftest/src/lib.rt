// Worked examples of the hash, held against its definition by a proof, and against the compiled code by a call.
#![tactic(auto)]

ghost use Rattle.std.specs.Prelude.{◌≡◌, true};
ghost use Rattle.hash.specs.Hash.{hash_outcome};
ghost use Rattle.selftest.specs.Rows.{is_value, RowsHold};

use b63::B63;
use field::Field;
use hash::hash;
use m61::M61;

fn agrees<F: Field>(ring: &[u64], text: &[u8], expected: u64) -> bool
    ensures { result ≡ is_value expected (hash_outcome F.Field.model ring.now text.now) }
{
    match hash::<F>(ring, text) {
        Ok(hash) => hash == expected,
        Err(_) => false,
    }
}

// Two lists over one generic function; that each agrees is the whole of what it answers, so each says it.
fn m61_agrees() -> bool
    ensures { result ≡ true }
{
    agrees::<M61>(&[], &[], 0)
        && agrees::<M61>(&[2], &[1], 3)
        && agrees::<M61>(&[9], &[0], 1)
        && agrees::<M61>(&[(1 << 61) - 2], &[1], 0)
        && agrees::<M61>(&[3], &[1, 0, 0, 0, 0, 0, 0, 2], 23)
        && agrees::<M61>(&[1 << 60], &[4], 3)
        && agrees::<M61>(&[1], &[0, 1], 258)
}

fn b63_agrees() -> bool
    ensures { result ≡ true }
{
    agrees::<B63>(&[3], &[1, 0, 0, 0, 0, 0, 0, 2], 11) & agrees::<B63>(&[1 << 62], &[2], 2)
}

// Whether the code as compiled gives every worked example's hash; by the proof it does.
pub fn self_test() -> bool
    ensures passes { result ≡ true }
    ensures rows { RowsHold }
{
    m61_agrees() & b63_agrees()
}

#[cfg(test)]
mod tests;
