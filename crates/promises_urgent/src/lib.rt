// What is promised of the urgent lane over whole lists of calls: definitions, statements and proofs, no code.
#![tactic(auto)]
