// The script objects in the work buffer: entered, linked to their outers, found by their global index; their paths.

#![tactic(auto)]

pub mod enter; // objects entered as they come, questions 10 to 12
pub mod link; // found by a global index, linked to their outers
pub mod object; // an object by its columns
pub mod class; // whether a path is known, and names a class
pub mod path; // a path measured and written
