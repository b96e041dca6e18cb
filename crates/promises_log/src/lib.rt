// What is promised of the shift log: statements and proofs, no code.
#![tactic(auto)]
