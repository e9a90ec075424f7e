// Layer 1, at its bottom: numbers in bytes, indices, refusals and answers.

#![tactic(auto)]

// Numbers
pub mod number; // little-endian and big-endian reads
pub mod signed; // two's complement
pub mod output; // bytes and numbers written to the front of a buffer

// Indices and answers
pub mod index; // the fields of object indices and mapped names
pub mod refusal; // what is refused
pub mod answer; // the number that a call returns
