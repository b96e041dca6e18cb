// The flows of a queue of packets: opening one and closing it. The urgent lane has the same tests over records of its own, with a deadline
// and with cells: a trait over both would name more than it saves.
#![tactic(auto)]

mod closing;
mod opening;

pub use closing::close;
pub use opening::open;
