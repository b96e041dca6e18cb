// What a line of the class program asks of its desk.
#![tactic(auto)]

mod parsing;

pub use parsing::parse;
