// What a line of a day's script says.
ghost use Rattle.std.specs.Prelude.{◌≡◌};
ghost use Rattle.script.specs.Heard.{Heard};
ghost use Rattle.script.specs.Lines.{said, form, blank_line, says};

use crate::fault::Fault;
use crate::names::Name;
use crate::places::Places;
use crate::reason::Reason;
use crate::words::Words;
use cipher::Key;
use ciphers::CipherName;
use fields::FieldName;
use std::alloc::Global;

#[derive(Drop)]
pub enum Call {
    Open {
        grave: u16,
        key: Key,
    },
    Draw {
        grave: u16,
    },
    Seal {
        grave: u16,
        draw: u64,
        text: Vec<u8>,
    },
    Void {
        grave: u16,
        draw: u64,
    },
    Check {
        grave: u16,
        draw: u64,
        text: Vec<u8>,
        seal: u64,
    },
    Clear {
        grave: u16,
    },
    Close {
        grave: u16,
    },
    Tell {
        grave: u16,
    },
    Owing,
}

#[derive(Drop)]
pub enum Line {
    // empty, or a comment
    Blank,
    Book {
        field: FieldName,
        cipher: CipherName,
    },
    Ring {
        places: Places,
    },
    Call(Call),
}

// The line that a name begins, with the parts that are behind the name. Each name has parts of its own, so the match is the
// table of them.
fn read_named(heap: Global, name: Name, words: &mut Words) -> Result<Line, Fault>
    ensures { Heard (λ l. (said l, words.new)) result (form name words.old) }
{
    Ok(match name {
        Name::Book => Line::Book {
            field: words.field()?,
            cipher: words.cipher()?,
        },
        Name::Ring => Line::Ring {
            places: words.places()?,
        },
        Name::Open => Line::Call(Call::Open {
            grave: words.grave()?,
            key: words.key()?,
        }),
        Name::Draw => Line::Call(Call::Draw {
            grave: words.grave()?,
        }),
        Name::Seal => Line::Call(Call::Seal {
            grave: words.grave()?,
            draw: words.draw()?,
            text: words.text(heap)?,
        }),
        Name::Void => Line::Call(Call::Void {
            grave: words.grave()?,
            draw: words.draw()?,
        }),
        Name::Check => Line::Call(Call::Check {
            grave: words.grave()?,
            draw: words.draw()?,
            text: words.text(heap)?,
            seal: words.seal()?,
        }),
        Name::Clear => Line::Call(Call::Clear {
            grave: words.grave()?,
        }),
        Name::Close => Line::Call(Call::Close {
            grave: words.grave()?,
        }),
        Name::Tell => Line::Call(Call::Tell {
            grave: words.grave()?,
        }),
        Name::Owing => Line::Call(Call::Owing),
    })
}

// Empty, or a comment.
fn is_blank(line: &str) -> bool
    ensures { result ≡ blank_line line.now }
{
    line.is_empty() || line.starts_with('#')
}

// What a line says, or why it is no call.
#[tactic(auto, unfolding(crate::specs::Lines::says))]
pub fn read_line(heap: Global, line: &str) -> Result<Line, Fault>
    ensures { Heard (λ l. said l) result (says line.now) }
{
    let line = line.trim();
    if is_blank(line) {
        return Ok(Line::Blank);
    }
    let mut words = Words::new(line);
    let name = words.name()?;
    let read = read_named(heap, name, &mut words)?;
    if !words.is_at_end() {
        return Err(Fault::NotACall(Reason::WordsTooMany));
    }
    Ok(read)
}
