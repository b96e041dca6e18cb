// What a line of text is, for every program: decimals with one blank before each, read at a place and written at a place.
#![tactic(auto)]

mod reading;
mod writing;

pub use reading::{grow, number};
pub use writing::{line, part};
