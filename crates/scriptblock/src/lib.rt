// Layer 2: the script block.

#![tactic(auto)]

pub mod script; // its check, and what an accepted one holds
pub mod objects; // its objects by index, and their names
