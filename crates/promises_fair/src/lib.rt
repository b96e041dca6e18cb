// What is promised of the fair lane over whole lists of calls: definitions, statements and proofs, no code.
#![tactic(auto)]
