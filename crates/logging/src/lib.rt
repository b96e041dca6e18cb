// What a station's calls are to the shift log, and what the log of a list of calls is.
#![tactic(auto)]

mod listing;
mod sorting;

pub use listing::listed;
pub use sorting::sort;

// What a call is to the log: nothing; an opening, with its flow and its deadline or weight; a closing; or an event, with its word.
#[derive(Clone, Copy, Debug, PartialEq, Eq)]
pub enum Sorted {
    Beyond,
    OpensUrgent(usize, u16),
    OpensFair(usize, u16),
    Closes,
    Happens(u32),
}

// The openings of a lane by rising flow: the first count words are theirs, and the rest are 0. A buffer and its length, since memory is
// fixed.
#[derive(Drop)]
pub struct Openings {
    pub words: [u32; 16],
    pub count: usize,
}
