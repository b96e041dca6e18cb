// The class lane worked by hand: sessions, descriptions, and wrong lanes that some calls tell from the right one. Statements and proofs, no code.
#![tactic(auto)]
