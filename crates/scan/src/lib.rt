// Question 24 and the class test with no memory beside the corpus and notes of names, for work buffers that are too short: by looking at each object and each
// class again. Slow, and exact.

#![tactic(auto)]

// Kept: `known`, `ends_in_class` and `is_class` stand in `objects` and `resolve` too, over the work buffer: shared, as
// `known_by(at, limit, |k| outer(w, k))`, they would be told how an outer, a name and a path are found, and their contracts rest on facts of the block here
// and of the buffer there. `is_class` shares three tests of an export: `may_be_class(e)` would be one name more for them.

pub mod script; // a script block with notes of its names
pub mod check; // the packages' blocks, in order
pub mod class; // the class test
pub mod repeats; // question 24
