// Package headers written from a description in house form (document 02, Q-4).

#![tactic(auto)]

pub mod little; // numbers written little-endian
pub mod pieces; // pieces written one behind another
pub mod check; // the description checked, and where its parts are
pub mod names; // a batch of names written
pub mod tables; // hashes, exports and numbers of imported names written
pub mod call; // the header, and the call
