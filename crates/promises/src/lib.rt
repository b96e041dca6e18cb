// What the station promises, in one record, and its one proof: no code.
#![tactic(auto)]
