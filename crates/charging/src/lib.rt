// The way up the tree of classes where a packet is begun: whether each finish on it can be reached, and what the begin leaves at each node.
#![tactic(auto)]

mod beginning;
mod passing;

pub use beginning::begin;
pub use passing::passes;
