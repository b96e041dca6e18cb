// What a line of a session asks of the station.
#![tactic(auto)]

mod parsing;

pub use parsing::parse;
