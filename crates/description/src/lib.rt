// What a description in house form is, and what the call that writes its header answers (document 02, Q-4): specs/Lib.antt. No code.

#![tactic(auto)]
