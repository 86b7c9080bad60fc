// The polynomial hash of a text under a ring of subkeys, over any field.
#![tactic(auto)]

ghost use Rattle.std.specs.Prelude.{◌≡◌, ◌^◌, ◌<◌, ◌≤◌, map, length, IfOk, slice_index};
ghost use Rattle.refusal.specs.Outcomes.{gives, told, decided};
ghost use Rattle.hash.specs.Texts.{block_bytes, number, block_count, chunk_count};
ghost use Rattle.hash.specs.Steps.{group_bytes, through, Powers};
ghost use Rattle.hash.specs.Hash.{after, some_from, text_causes, hash_outcome, working_outcome};

pub use byte_rows::LONGEST_TEXT;
use field::Field;
use refusal::Refusal;

const BLOCK_BYTES: usize = 7;

const CHUNK_BLOCKS: usize = 1_024;

const CHUNK_BYTES: usize = 7_168;

// Four blocks.
const GROUP_BYTES: usize = 28;

// How many chunks the text has: as many subkeys does its hash take.
pub fn chunks(text: &[u8]) -> usize
    ensures { result ≡ chunk_count text.now }
{
    text.len().div_ceil(BLOCK_BYTES).div_ceil(CHUNK_BLOCKS)
}

// The number of a block, its first byte lowest.
fn block_number(block: &[u8]) -> u64
    requires { length block.now ≤ block_bytes }
    ensures value { result ≡ number block.now }
    ensures small { result < 2 ^ 56 }
{
    // By the project's rule these loops go over a slice's elements with their index; here it is the byte's place.
    let mut number = 0;
    for (i, byte) in block.iter().enumerate() {
        number += u64::from(*byte) << (8 * i);
    }
    number
}

// Whether some subkey is no element's own number. Every place is looked at, and no branch depends on any.
fn too_large<F: Field>(ring: &[u64]) -> bool
    ensures { result ≡ some_from F.Field.model.size ring.now }
{
    let mut found = false;
    for subkey in ring {
        found |= *subkey >= F::order();
    }
    found
}

// The fourth power of a subkey, the third, the second and the subkey: what four blocks are multiplied by in one step.
fn powers<F: Field>(subkey: u64) -> [u64; 4]
    ensures powers { Powers F.Field.model result }
    ensures subkey { slice_index result 3 ≡ subkey }
{
    let second = F::product(subkey, subkey);
    let third = F::product(second, subkey);
    let fourth = F::product(third, subkey);
    [fourth, third, second, subkey]
}

// One step for each block.
fn through_blocks<F: Field>(start: u64, subkey: u64, bytes: &[u8]) -> u64
    ensures element { F.Field.model.means result ≡ through F.Field.model (F.Field.model.means subkey) (F.Field.model.means start) bytes.now }
{
    let mut x = start;
    for block in bytes.chunks(BLOCK_BYTES) {
        x = F::product(F::sum(x, block_number(block)), subkey);
    }
    x
}

// One step for four blocks, whose products do not wait for each other.
#[tactic(auto, using(crate::proofs::Fours::group_step))]
fn through_group<F: Field>(x: u64, powers: [u64; 4], group: &[u8]) -> u64
    requires { (length group.now ≡ group_bytes) × (Powers F.Field.model powers) }
    ensures element { F.Field.model.means result ≡ through F.Field.model (F.Field.model.means (slice_index powers 3)) (F.Field.model.means x) group.now }
{
    let first = block_number(&group[0..7]);
    let second = block_number(&group[7..14]);
    let third = block_number(&group[14..21]);
    let fourth = block_number(&group[21..28]);
    F::weighted_sum([F::sum(x, first), second, third, fourth], powers)
}

// Where x comes to with the blocks of one chunk, which one subkey serves.
fn through_chunk<F: Field>(start: u64, subkey: u64, chunk: &[u8]) -> u64
    ensures element { F.Field.model.means result ≡ through F.Field.model (F.Field.model.means subkey) (F.Field.model.means start) chunk.now }
{
    let powers = powers::<F>(subkey);
    let mut x = start;
    for group in chunk.chunks(GROUP_BYTES) {
        x = if group.len() == GROUP_BYTES {
            through_group::<F>(x, powers, group)
        } else {
            through_blocks::<F>(x, subkey, group)
        };
    }
    x
}

// A working number of what the text's blocks make, each with the subkey of its chunk.
fn polynomial<F: Field>(ring: &[u64], text: &[u8]) -> u64
    requires { chunk_count text.now ≤ length ring.now }
    ensures element { F.Field.model.means result ≡ after F.Field.model (map F.Field.model.means ring.now) text.now (block_count text.now) }
{
    // The same rule: the index of a chunk is that of its subkey.
    let mut x = 0;
    for (c, chunk) in text.chunks(CHUNK_BYTES).enumerate() {
        x = through_chunk::<F>(x, ring[c], chunk);
    }
    x
}

// Refuses a text that is too long, or that has more chunks than a ring has places.
pub fn admit(text: &[u8], places: usize) -> Result<(), Refusal>
    ensures { told result ≡ decided (text_causes text.now places) (gives tt) }
{
    if text.len() > LONGEST_TEXT {
        return Err(Refusal::TextTooLong);
    }
    if places < chunks(text) {
        return Err(Refusal::RingTooShort);
    }
    Ok(())
}

// The hash under the elements that the ring's working numbers mean. No branch depends on ring or text but for lengths.
pub fn hash_by_working<F: Field>(ring: &[u64], text: &[u8]) -> Result<u64, Refusal>
    ensures answer { told result ≡ working_outcome F.Field.model ring.now text.now }
    ensures below { IfOk result (λ h. h < F.Field.model.size) }
{
    admit(text, ring.len())?;
    let x = polynomial::<F>(ring, text);
    Ok(F::reduce(F::sum(x, text.len() as u64)))
}

// The hash under a ring of the caller's own, each subkey of which must be an element's own number.
#[tactic(auto, using(crate::proofs::Rings::all_own))]
pub fn hash<F: Field>(ring: &[u64], text: &[u8]) -> Result<u64, Refusal>
    ensures { told result ≡ hash_outcome F.Field.model ring.now text.now }
{
    admit(text, ring.len())?;
    if too_large::<F>(ring) {
        return Err(Refusal::SubkeyTooLarge);
    }
    hash_by_working::<F>(ring, text)
}
