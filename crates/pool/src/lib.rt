// Layer 3 in code: the texts of the rows' script objects, kept once in the work buffer between classes and rows.

#![tactic(auto)]

pub mod compose; // the text of one object
pub mod rows; // which row keeps which
