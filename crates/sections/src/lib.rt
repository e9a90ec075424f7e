// Layer 3 in code: the report's sections, written row by row from a resolved work buffer.

#![tactic(auto)]

pub mod source; // what it is written from
pub mod texts; // class and native class, written
pub mod row; // a row, written
pub mod ahead; // what the next rows are written from, looked at early
pub mod section; // sections and the report, written
