// What is promised of the class program and its lines: definitions, statements and proofs, no code.
#![tactic(auto)]
