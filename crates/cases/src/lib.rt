// What was worked by hand: the rules' cases, a whole session, closings and bad numbers, and sessions whose fields differ. Statements and proofs, no code.
#![tactic(auto)]
