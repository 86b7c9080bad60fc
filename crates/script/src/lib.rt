// What the lines of a day's script say: their words, their texts, and the calls that they name.
#![tactic(auto)]

mod fault;
mod hex;
mod line;
mod names;
mod places;
mod reason;
mod words;

pub use ciphers::CipherName;
pub use fault::Fault;
pub use fields::FieldName;
pub use line::{Call, Line, read_line};
pub use places::{MOST_PLACES, Places};
pub use reason::Reason;
