// The sealed sheet, read and written without a reference to what was read.
ghost use Rattle.std.specs.Prelude.{◌≡◌, length};
ghost use Rattle.refusal.specs.Outcomes.{told, mapped};
ghost use Rattle.sheet.specs.Sheets.{read_outcome};
ghost use Rattle.sheet.specs.Names.{drafted};
ghost use Rattle.sheet.specs.Writing.{write_outcome, buffer_after};
ghost use Rattle.hemmuzhan.specs.Sheets.{found_in, Placed, RecordLength};

use refusal::Refusal;
use sheet::{Draft, Read, read_sheet};

// What a record says of its sheet, without a reference: C has none of ours, so the text is told by its length.
#[derive(Clone, Copy, PartialEq, Eq, Debug)]
pub struct Found {
    pub grave: u8,
    pub draw: u64,
    pub seal: u64,
    pub text_length: u64,
}

// The sheet at the front of the input. Its text begins at byte 24 of the input, and ends its record.
pub fn find_sheet(input: &[u8]) -> Result<Found, Refusal>
    ensures answer { told result ≡ mapped found_in (read_outcome input.now) }
    ensures placed { Placed input.now (read_outcome input.now) }
{
    let Read { sheet, rest: _ } = read_sheet(input)?;
    Ok(Found {
        grave: sheet.grave,
        draw: sheet.draw,
        seal: sheet.seal,
        text_length: sheet.text.len() as u64,
    })
}

// Writes the sheet's record, 24 bytes and the text, to the front of the buffer, and gives the record's length. A client of
// this crate alone has here what `Draft::write` says, and the size.
pub fn write_sheet(draft: Draft<'_>, buffer: &mut [u8]) -> Result<usize, Refusal>
    ensures answer { told result ≡ write_outcome (drafted draft.entry) (length buffer.old) }
    ensures buffer { buffer.new ≡ buffer_after (drafted draft.entry) buffer.old }
    ensures size { RecordLength (drafted draft.entry) }
{
    draft.write(buffer)
}
