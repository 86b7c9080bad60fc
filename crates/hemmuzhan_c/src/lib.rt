// The library for C and Rust: numbers and lists alone go in and out, and an answer is 0 or a refusal's number. C's interface
// has neither Result nor our structs: so a key comes as two numbers, field and cipher as one each, a sheet part by part, and
// what is answered beside the status goes where a reference says, or into the first place of a list.
#![tactic(auto)]

ghost use Rattle.std.specs.Prelude.{◌≡◌, length, replicate};
ghost use Rattle.refusal.specs.Outcomes.{told, mapped};
ghost use Rattle.fields.specs.Fields.{field_called, hash_over_field};
ghost use Rattle.sheet.specs.Names.{sealed};
ghost use Rattle.sheet.specs.Sheets.{read_outcome};
ghost use Rattle.sheet.specs.Writing.{write_outcome, buffer_after};
ghost use Rattle.hemmuzhan.specs.Calls.{key_of, sealed_outcome, checked_outcome, status, verdict, seal_after};
ghost use Rattle.hemmuzhan.specs.Values.{value_after};
ghost use Rattle.hemmuzhan.specs.Sheets.{grave_read, draw_read, seal_read, text_length_read, Placed, RecordLength};

use hemmuzhan::{accept, find_sheet, hash_into, seal_into, write_sheet};
use refusal::Refusal;
use seal::{Claim, Key};
use sheet::Draft;

// 0, or the refusal's number.
fn status<T: Drop>(answer: Result<T, Refusal>) -> u8
    ensures { result ≡ status (told answer) }
{
    match answer {
        Ok(_) => 0,
        Err(refusal) => refusal.number(),
    }
}

// The key that C gives as two numbers.
fn key_of(first: u64, second: u64) -> Key
    ensures { result ≡ key_of first second }
{
    Key { first, second }
}

// Writes the text's hash under the ring to `hash`.
#[unsafe(no_mangle)]
pub extern "C" fn hemmuzhan_hash(field: u8, ring: &[u64], text: &[u8], hash: &mut u64) -> u8
    ensures answer { result ≡ status (hash_over_field (field_called field) ring.now text.now) }
    ensures hash { hash.new ≡ value_after (hash_over_field (field_called field) ring.now text.now) hash.old }
{
    status(hash_into(field, ring, text, hash))
}

// Writes the seal of the text to the first place of `seal`. The ring list ends as zeros, whichever way the call ends.
#[unsafe(no_mangle)]
pub extern "C" fn hemmuzhan_seal(
    field: u8,
    cipher: u8,
    key_first: u64,
    key_second: u64,
    draw: u64,
    text: &[u8],
    ring: &mut [u64],
    seal: &mut [u64],
) -> u8
    ensures answer { result ≡ status (sealed_outcome field cipher (key_of key_first key_second) draw text.now (length ring.old) (length seal.old)) }
    ensures seal { seal.new ≡ seal_after (sealed_outcome field cipher (key_of key_first key_second) draw text.now (length ring.old) (length seal.old)) seal.old }
    ensures zeros { ring.new ≡ replicate (length ring.old) 0 }
{
    let key = key_of(key_first, key_second);
    status(seal_into(field, cipher, key, draw, text, ring, seal))
}

// Whether the seal is the text's: 0 where it is. The ring list ends as zeros, whichever way the call ends.
#[unsafe(no_mangle)]
pub extern "C" fn hemmuzhan_check(
    field: u8,
    cipher: u8,
    key_first: u64,
    key_second: u64,
    draw: u64,
    text: &[u8],
    seal: u64,
    ring: &mut [u64],
) -> u8
    ensures answer { result ≡ verdict (checked_outcome field cipher (key_of key_first key_second) draw text.now seal (length ring.old)) }
    ensures zeros { ring.new ≡ replicate (length ring.old) 0 }
{
    let key = key_of(key_first, key_second);
    let claim = Claim { draw, text, seal };
    status(accept(field, cipher, key, claim, ring))
}

// Reads the sheet at the front of the input. Its text begins at byte 24 of the input, and ends its record.
#[unsafe(no_mangle)]
pub extern "C" fn hemmuzhan_read_sheet(
    input: &[u8],
    grave: &mut u64,
    draw: &mut u64,
    seal: &mut u64,
    text_length: &mut u64,
) -> u8
    ensures answer { result ≡ status (read_outcome input.now) }
    ensures grave { grave.new ≡ value_after (mapped grave_read (read_outcome input.now)) grave.old }
    ensures draw { draw.new ≡ value_after (mapped draw_read (read_outcome input.now)) draw.old }
    ensures seal { seal.new ≡ value_after (mapped seal_read (read_outcome input.now)) seal.old }
    ensures length { text_length.new ≡ value_after (mapped text_length_read (read_outcome input.now)) text_length.old }
    ensures placed { Placed input.now (read_outcome input.now) }
{
    let found = find_sheet(input);
    if let Ok(found) = found {
        *grave = u64::from(found.grave);
        *draw = found.draw;
        *seal = found.seal;
        *text_length = found.text_length;
    }
    status(found)
}

// Writes the sheet's record, 24 bytes and the text, to the front of the buffer.
#[unsafe(no_mangle)]
pub extern "C" fn hemmuzhan_write_sheet(
    grave: u16,
    draw: u64,
    seal: u64,
    text: &[u8],
    buffer: &mut [u8],
) -> u8
    ensures answer { result ≡ status (write_outcome (sealed grave draw seal text.now) (length buffer.old)) }
    ensures buffer { buffer.new ≡ buffer_after (sealed grave draw seal text.now) buffer.old }
    ensures size { RecordLength (sealed grave draw seal text.now) }
{
    let draft = Draft {
        grave,
        draw,
        seal,
        text,
    };
    status(write_sheet(draft, buffer))
}
