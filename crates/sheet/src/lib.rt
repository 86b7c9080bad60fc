// The sealed sheet on a chip: a record of kind 1, read and written.
#![tactic(auto)]

ghost use Rattle.std.specs.Prelude.{◌≡◌, ◌+◌, ◌≤◌, length, take, IfOk};
ghost use Rattle.refusal.specs.Outcomes.{told, mapped, gives, decided};
ghost use Rattle.sheet.specs.Sheets.{sheet_in, limit_causes, body_causes, read_outcome};
ghost use Rattle.sheet.specs.Names.{drafted, sheet_seen, all_seen};
ghost use Rattle.sheet.specs.Writing.{write_outcome, buffer_after, put_at, ReadsBack, WritesBack};

use byte_rows::{LONGEST_TEXT, take};
use record::{Kind, Record, read_record};
use refusal::Refusal;

const HIGHEST_GRAVE: u16 = 255;

// Length, kind, grave, draw and seal.
const FIXED_BYTES: usize = 24;

#[derive(Clone, Copy)]
pub struct Sheet<'a> {
    pub grave: u8,
    pub draw: u64,
    pub seal: u64,
    pub text: &'a [u8],
}

// A sheet, and what follows its record.
#[derive(Clone, Copy)]
pub struct Read<'a> {
    pub sheet: Sheet<'a>,
    pub rest: &'a [u8],
}

// Refuses a grave and a text that no sheet can have.
fn check_limits(grave: u16, text: &[u8]) -> Result<(), Refusal>
    ensures { told result ≡ decided (limit_causes grave text.now) (gives tt) }
{
    if grave > HIGHEST_GRAVE {
        return Err(Refusal::GraveOutOfRange);
    }
    if text.len() > LONGEST_TEXT {
        return Err(Refusal::TextTooLong);
    }
    Ok(())
}

// The parts that follow the kind.
fn read_body(body: &[u8]) -> Result<Sheet<'_>, Refusal>
    ensures { mapped sheet_seen (told result) ≡ decided (body_causes body.now) (gives (sheet_in body.now)) }
{
    // By the project's rule a chain of let .. else takes the parts.
    let Some((grave, after_grave)) = take::<u16, 2>(body) else {
        return Err(Refusal::RecordCutShort);
    };
    let Some((draw, after_draw)) = take::<u64, 8>(after_grave) else {
        return Err(Refusal::RecordCutShort);
    };
    let Some((seal, text)) = take::<u64, 8>(after_draw) else {
        return Err(Refusal::RecordCutShort);
    };
    check_limits(grave, text)?;
    // The limits serve the writer too, and test the grave before the text; behind them a grave is one byte.
    Ok(Sheet {
        grave: grave as u8,
        draw,
        seal,
        text,
    })
}

// The sheet at the front of the input.
pub fn read_sheet(input: &[u8]) -> Result<Read<'_>, Refusal>
    ensures answer { mapped all_seen (told result) ≡ read_outcome input.now }
    ensures exact { IfOk result (λ read. WritesBack input.now (all_seen read)) }
{
    let Some(Record { kind, body, rest }) = read_record(input) else {
        return Err(Refusal::RecordCutShort);
    };
    let Ok(Kind::SealedSheet) = Kind::try_from(kind) else {
        return Err(Refusal::Undefined);
    };
    let sheet = read_body(body)?;
    Ok(Read { sheet, rest })
}

// Copies the bytes to their place in the buffer.
fn put(buffer: &mut [u8], place: usize, bytes: &[u8])
    requires { place + length bytes.now ≤ length buffer.old }
    ensures { buffer.new ≡ put_at buffer.old place bytes.now }
{
    buffer[place..place + bytes.len()].copy_from_slice(bytes);
}

// A sheet to be written. It may ask for a grave that no sheet can have.
#[derive(Clone, Copy)]
pub struct Draft<'a> {
    pub grave: u16,
    pub draw: u64,
    pub seal: u64,
    pub text: &'a [u8],
}

impl Draft<'_> {
    // Writes the sheet's record to the front of the buffer, and gives the record's length. The buffer is the caller's, by the
    // rule for the writer, which needs no heap.
    pub fn write(self, buffer: &mut [u8]) -> Result<usize, Refusal>
        ensures answer { told result ≡ write_outcome (drafted self.entry) (length buffer.old) }
        ensures buffer { buffer.new ≡ buffer_after (drafted self.entry) buffer.old }
        ensures back { IfOk result (λ n. ReadsBack (take n buffer.new) (drafted self.entry)) }
    {
        let Draft {
            grave,
            draw,
            seal,
            text,
        } = self;
        check_limits(grave, text)?;
        let size = FIXED_BYTES + text.len();
        if buffer.len() < size {
            return Err(Refusal::BufferTooShort);
        }
        put(buffer, 0, &((size - 4) as u32).to_le_bytes());
        put(buffer, 4, &Kind::SealedSheet.number().to_le_bytes());
        put(buffer, 6, &grave.to_le_bytes());
        put(buffer, 8, &draw.to_le_bytes());
        put(buffer, 16, &seal.to_le_bytes());
        put(buffer, FIXED_BYTES, text);
        Ok(size)
    }
}

#[cfg(test)]
mod tests;
