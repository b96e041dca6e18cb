// What every session keeps of its input: the line that is not at its end yet, and how far a piece was taken.
#![tactic(auto)]

mod line;

pub use line::Line;

// The state after a piece of input, how many bytes of the input it took, and how many bytes of output it wrote.
#[derive(Drop)]
pub struct Fed<S> {
    pub state: S,
    pub read: usize,
    pub written: usize,
}
