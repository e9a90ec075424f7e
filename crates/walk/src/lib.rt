// Layer 3 in code: a corpus opened, and what it holds entered in the work buffer.

#![tactic(auto)]

pub mod script; // the script objects, entered and linked
pub mod corpus; // a framed corpus
pub mod walk; // one walk over the packages
