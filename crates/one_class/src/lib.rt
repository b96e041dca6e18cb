// That a tree of one class is the fair lane: the statement and its proof, no code.
#![tactic(auto)]
