// What is promised of the class lane over every tree that keeps the rules and every list of calls: definitions, statements and proofs, no code.
#![tactic(auto)]
