// Lowering by rules, with no table at hand.

#![tactic(auto)]

pub mod latin; // ASCII, Latin-1 and Latin Extended-A
pub mod rules; // what has a short rule
pub mod caseless; // ASCII and scripts without capitals
pub mod scripts; // Latin, Greek and Cyrillic, with no branch
