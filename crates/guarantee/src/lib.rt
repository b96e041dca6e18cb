// What a client is sold, in one record, and its one proof: no code.
#![tactic(auto)]
