// Layer 1: the id of a name.

#![tactic(auto)]

pub mod lowered; // the units of a lowered text
pub mod script; // scripts that are lowered with no branch
pub mod wide; // the units of lowered wide text, many a turn
pub mod short; // the hash of few units, and of a short name of one-byte text
pub mod ascii; // the units of a short name of wide text that is ASCII, laid out for `short`
pub mod id; // the id of a name
