// One grave's record: what it says, and what each call of the book makes of it.
#![tactic(auto)]

pub mod entry;
pub mod held;
pub mod record;
pub mod turns;
