// The class lane from its description on: a tree is described, class by class and flow by flow, then set up, and then it answers calls.
#![tactic(auto)]

mod describing;
mod hearing;
mod telling;

use classes::{Answer, Call, Classes};
use plans::Plan;
use units::Refusal;

// Whether a tree is set up, what is described of it so far, and the lane. The description stays when it is set up: `Answering` speaks of it then.
#[derive(Drop)]
pub struct Desk {
    pub ready: bool,
    pub plan: Plan,
    pub lane: Classes,
}

// What a desk is asked.
#[derive(Clone, Copy, Debug, PartialEq, Eq)]
pub enum Command {
    // One class more: the class that it hangs from, and its weight.
    Class(u64, u64),
    // A flow hangs from a class: the flow and the class.
    Hang(u64, u64),
    SetUp,
    // A call of the lane.
    Ask(Call),
}

// What it replies.
#[derive(Clone, Copy, Debug, PartialEq, Eq)]
pub enum Reply {
    Noted,
    Refused(Refusal),
    // What the lane answered.
    Answered(Answer),
}

// The desk after a command, and the reply.
#[derive(Drop)]
pub struct Heard {
    pub desk: Desk,
    pub reply: Reply,
}
