// The hash of a script object's path, which stands nowhere: its units are made as the hash asks for them.

#![tactic(auto)]

pub mod chain; // an object and those outside it
pub mod units; // the units of a chain's path
pub mod hash; // their hash
pub mod path; // the hash of an object's path
