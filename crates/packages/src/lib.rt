// Layer 3 in code: the framing, and one package by its places: references, candidates, names, class paths.

#![tactic(auto)]

pub mod frame; // the corpus around its blocks
pub mod site; // packages of a corpus, and where they are
pub mod package; // where the parts of an accepted package are, and what an index means by them
pub mod block; // an accepted package: its block, its parts, notes of its names
pub mod entries; // what it holds, by number
pub mod names; // names behind a text
pub mod reference; // the text of a reference
pub mod rows; // candidates, and the names of their rows
pub mod class_path; // the path of a class
pub mod numbered; // rows that say their kind by a number
pub mod described; // a package and its exports from where their names start
