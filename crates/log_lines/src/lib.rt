// The text that the log program writes: its answers as lines, and a log's records as the lines of a session.
#![tactic(auto)]

mod answers;
mod placing;
mod records;

pub use answers::{difference, verdict, written};
pub use records::{event, opening};

// Room that every line has enough of.
pub const LONGEST: usize = 108;
