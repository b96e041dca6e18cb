// The command of the log program: the line that says what is asked of it.
#![tactic(auto)]

mod reading;

pub use reading::parse;

// What a line asks for: to check a log, to show its records, to write a session's log; or for two logs, the first of so many bytes, where
// they differ, or the tail of the longer.
#[derive(Clone, Copy, Debug, PartialEq, Eq)]
pub enum Command {
    Check,
    Show,
    Write,
    Diff(usize),
    Tail(usize),
}
