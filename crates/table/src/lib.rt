// A look-up table in a lent buffer: records that are found by a key of two words.
// Kept: an arena of indices: entries are records in bytes, and a link is the number of one, since nothing may be allocated and the caller lends bytes.

#![tactic(auto)]

pub mod words; // numbers in a buffer
pub mod search; // where a search for a key ends
pub mod entries; // a table made, looked up, added to
