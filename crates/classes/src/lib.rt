// The class lane: a queue of packets whose flows hang from a tree of classes, each of which runs the fair rules among its children.
#![tactic(auto)]

use packets::Queue;
use tree::Tree;
use units::{Refusal, Tag};

// The lane: the tree and the queue.
#[repr(C)]
#[derive(Drop)]
pub struct Classes {
    pub tree: Tree,
    pub queue: Queue,
}

// Every call that a lane answers.
#[derive(Clone, Copy, Debug, PartialEq, Eq)]
pub enum Call {
    // Opens a flow: the flow and its weight.
    Open(u64, u64),
    // Closes a flow: the flow.
    Close(u64),
    // Offers a packet: the flow and the length.
    Offer(u64, u64),
    Begin,
    End,
}

// What a call is answered. A refusal stays one of the answers: the theorems on every call name it so.
#[derive(Clone, Copy, Debug, PartialEq, Eq)]
pub enum Answer {
    Refused(Refusal),
    Opened,
    Closed,
    // The packet's number.
    Taken(u64),
    // The flow, the number, the length and the start tag, in the flow's own class, of the packet that goes into service.
    Begun(u64, u64, u64, Tag),
    // The flow, the number and the length of the packet that was in service.
    Ended(u64, u64, u64),
}

// The lane after a call, and the answer.
#[derive(Drop)]
pub struct Done {
    pub lane: Classes,
    pub answer: Answer,
}
