// The seal of a text under a key and a draw, over any field and any cipher.
#![tactic(auto)]

ghost use Rattle.std.specs.Prelude.{◌≡◌, ◌^◌, ◌<◌, ◌≤◌, length, replicate, IfOk};
ghost use Rattle.refusal.specs.Outcomes.{gives, told, decided};
ghost use Rattle.hash.specs.Hash.{text_causes};
ghost use Rattle.seal.specs.Sealing.{SealingLaws, seal_outcome, check_outcome};
ghost use Rattle.seal.specs.Seals.{Subkeys, hash_under, sealing};

use hash::hash_by_working;

mod wipe;

pub use bound::collisions;
pub use cipher::{Block, Cipher, Key};
pub use field::Field;
pub use hash::{admit, chunks};
pub use refusal::Refusal;
pub use wipe::Wipe;

// What marks a seal's own block: the blocks of subkeys begin with 0.
const OWN: u64 = 1 << 63;

// What a `&mut` leaves, only a call's own clause can say: so each call that is lent a ring list says that it ends as zeros,
// and each that asks a cipher that its function is kept.

// Cipher, key, draw, text and ring stay parameters: each call is given its own, and none is kept for the next.

// Writes subkey c to place c, for each c below n.
fn write_subkeys<F: Field, C: Cipher>(cipher: &mut C, key: Key, n: usize, ring: &mut [u64])
    requires { n ≤ length ring.old }
    ensures ring { Subkeys F.Field.model (C.Cipher.function cipher.old) key n ring.new }
    ensures kept { C.Cipher.function cipher.new ≡ C.Cipher.function cipher.old }
{
    for (c, place) in ring[..n].iter_mut().enumerate() {
        let block = Block {
            first: 0,
            second: c as u64,
        };
        let answer = cipher.encipher(key, block);
        *place = F::reduce(answer.first);
    }
}

// The hash of the text under the key's subkeys, which are left in the ring.
fn hash_by_key<F: Field, C: Cipher>(
    cipher: &mut C,
    key: Key,
    text: &[u8],
    ring: &mut [u64],
) -> Result<u64, Refusal>
    ensures hash { told result ≡ decided (text_causes text.now (length ring.old)) (gives (hash_under F.Field.model (C.Cipher.function cipher.old) key text.now)) }
    ensures below { IfOk result (λ h. h < 2 ^ 63) }
    ensures kept { C.Cipher.function cipher.new ≡ C.Cipher.function cipher.old }
{
    admit(text, ring.len())?;
    write_subkeys::<F, C>(cipher, key, chunks(text), ring);
    hash_by_working::<F>(ring, text)
}

// The seal of the text. The ring list ends as zeros, whichever way the call ends.
#[tactic(auto, using(crate::proofs::Apart::sealing_laws, crate::proofs::Sealed::sealed))]
pub fn seal_text<F: Field, C: Cipher>(
    cipher: &mut C,
    key: Key,
    draw: u64,
    text: &[u8],
    ring: &mut [u64],
) -> Result<u64, Refusal>
    ensures answer { told result ≡ seal_outcome (sealing F.Field.model (C.Cipher.function cipher.old)) key draw text.now (length ring.old) }
    ensures zeros { ring.new ≡ replicate (length ring.old) 0 }
    ensures kept { C.Cipher.function cipher.new ≡ C.Cipher.function cipher.old }
    ensures laws { SealingLaws (sealing F.Field.model (C.Cipher.function cipher.old)) }
{
    let guard = Wipe { ring };
    let hash = hash_by_key::<F, C>(cipher, key, text, guard.ring)?;
    let block = Block {
        first: OWN + hash,
        second: draw,
    };
    let answer = cipher.encipher(key, block);
    Ok(answer.first)
}

// A sheet's parts, as they are given to a check.
#[derive(Clone, Copy)]
pub struct Claim<'a> {
    pub draw: u64,
    pub text: &'a [u8],
    pub seal: u64,
}

// Whether a seal is the text's. The ring list ends as zeros, whichever way the call ends.
pub fn check_seal<F: Field, C: Cipher>(
    cipher: &mut C,
    key: Key,
    claim: Claim<'_>,
    ring: &mut [u64],
) -> Result<bool, Refusal>
    ensures answer { told result ≡ check_outcome (sealing F.Field.model (C.Cipher.function cipher.old)) key claim.entry.draw claim.entry.text.now claim.entry.seal (length ring.old) }
    ensures zeros { ring.new ≡ replicate (length ring.old) 0 }
    ensures kept { C.Cipher.function cipher.new ≡ C.Cipher.function cipher.old }
{
    let Claim { draw, text, seal } = claim;
    let expected = seal_text::<F, C>(cipher, key, draw, text, ring)?;
    Ok(seal == expected)
}
