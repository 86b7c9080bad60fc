// The seal book: the register of graves, its calls, and its promise over every run of them.
#![tactic(auto)]

mod calls;

pub use calls::{Account, Book, Draw, Returned};
pub use graves::entry::State;
pub use graves::turns::Standing;
pub use seal::Claim;
