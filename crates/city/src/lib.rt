// Layer 1: CityHash64.

#![tactic(auto)]

pub mod word; // words of 64 bits that wrap
pub mod city; // the hash
