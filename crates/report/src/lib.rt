// Layer 3 in code, on top: the call's passes over corpus, work buffer and report buffer.

#![tactic(auto)]

pub mod call; // the call
