// Lowering a character of a name for its id: A to Z, and by the table.

#![tactic(auto)]

pub mod ascii; // A to Z
pub mod table; // all pairs
pub mod search; // by the table
