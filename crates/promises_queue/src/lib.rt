// What is promised of any queue of packets over whole lists of calls, whatever it ranks by: definitions, statements and proofs, no code.
#![tactic(auto)]
