// The listing of hash records: a line for each record of an input.
#![tactic(auto)]

ghost use Rattle.std.specs.Prelude.{◌≡◌, IfOk, string_bytes};
ghost use Rattle.refusal.specs.Outcomes.{told};
ghost use Rattle.listing.specs.Lines.{outcome_of, next_of, seen, line_of, listing_of, LineByLine};

use record::{Record, read_record};
use refusal::Refusal;
use std::alloc::{AllocError, Global};

mod answer;

// The answer to one record, and where the next one begins: nowhere behind a record that is cut short.
struct Entry<'a> {
    answer: Result<u64, Refusal>,
    next: Option<&'a [u8]>,
}

fn read_entry(input: &[u8]) -> Entry<'_>
    ensures answer { told result.answer ≡ outcome_of input.now }
    ensures next { seen result.next ≡ next_of input.now }
{
    let Some(Record { kind, body, rest }) = read_record(input) else {
        return Entry {
            answer: Err(Refusal::RecordCutShort),
            next: None,
        };
    };
    let answer = answer::answer(kind, body);
    let next = match answer {
        Err(Refusal::RecordCutShort) => None,
        _ => Some(rest),
    };
    Entry { answer, next }
}

// The line that an answer prints as, with its newline.
fn line_text(heap: Global, answer: Result<u64, Refusal>) -> Result<String, AllocError>
    ensures { IfOk result (λ text. string_bytes text ≡ line_of (told answer)) }
{
    match answer {
        Ok(hash) => format!(in heap; "{hash:016x}\n"),
        Err(refusal) => format!(in heap; "{refusal}\n"),
    }
}

// One record's line, and where the next record begins: nowhere behind a record that is cut short.
#[derive(Drop)]
pub struct Line<'a> {
    pub text: String,
    pub next: Option<&'a [u8]>,
}

// The line of the record at the front of the input. The only error is want of memory.
pub fn first_line(heap: Global, input: &[u8]) -> Result<Line<'_>, AllocError>
    ensures { IfOk result (λ line. (string_bytes line.text ≡ line_of (outcome_of input.now)) × (seen line.next ≡ next_of input.now)) }
{
    let Entry { answer, next } = read_entry(input);
    let text = line_text(heap, answer)?;
    Ok(Line { text, next })
}

// The lines of all records of the input, up to and with the first that is cut short. The only error is want of memory.
pub fn listing(heap: Global, input: &[u8]) -> Result<String, AllocError>
    ensures bytes { IfOk result (λ text. string_bytes text ≡ listing_of input.now) }
    ensures lines { LineByLine }
{
    let mut text = String::new(heap);
    let mut rest = input;
    while !rest.is_empty() {
        let line = first_line(heap, rest)?;
        text.push_str(line.text.as_str())?;
        let Some(next) = line.next else {
            return Ok(text);
        };
        rest = next;
    }
    Ok(text)
}
