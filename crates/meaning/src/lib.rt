// Layer 3, its meaning: what the report is, and the theorems about it, in specs/. The code that is proved against it stands in crates above.

#![tactic(auto)]
