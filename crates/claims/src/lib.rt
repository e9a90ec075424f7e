// What is claimed of the call, in the words and the order of the demands: specs/Claims.antt. Statements only.

#![tactic(auto)]
