// Layer 2 from the writing side: blocks as bytes, and the package header that a description gives. Definitions only, in specs/.

#![tactic(auto)]
