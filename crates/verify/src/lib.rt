// A build's own hashes (document 02, Q-2): the call that counts them and compares package ids.

#![tactic(auto)]

pub mod counts; // paths resolved and hashes that match
pub mod flags; // one flag for each package
pub mod output; // the output, written
pub mod call; // the call
