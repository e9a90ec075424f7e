// Layer 2, at its bottom: fields, and the names of either kind of block. A module uses those above it.
// What is at a position.

#![tactic(auto)]

pub mod cursor; // a position over a borrowed block
pub mod reader; // fields at a position
// Names.
pub mod names; // name batches
pub mod places; // names by number
pub mod notes; // names by number, from notes
pub mod texts; // the name at a place
