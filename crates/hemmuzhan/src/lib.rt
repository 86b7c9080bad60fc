// The library's calls with field and cipher named by number, as they come from C and from records. Each answers a value or a
// refusal; the crate that exports them to C turns that into a number.
#![tactic(auto)]

mod calls;
mod sheets;
mod suite;

pub use calls::{accept, hash_into, seal_into};
pub use sheets::{Found, find_sheet, write_sheet};
pub use suite::Suite;
