// The nodes of the tree that a description gives.
ghost use Rattle.std.specs.Prelude.{◌≡◌, ◌<◌};
ghost use Rattle.tree.specs.Tree.{new_node, class_node, flow_node, node_at, tree_of};

use plans::Plan;
use std::array;
use tree::{Class, Node, Tree};
use units::Tag;

// The tree that is described, before any call.
pub(crate) fn tree_of(plan: &Plan) -> Tree
    ensures { result ≡ tree_of plan.now }
{
    let untouched = Class {
        time: Tag(0),
        largest: Tag(0),
    };
    Tree {
        nodes: array::from_fn(|k| node_at(plan, k)),
        classes: [untouched; 31],
    }
}

// The node at place k: those of the classes stand before those of the flows.
#[tactic(auto, using(tree::proofs::Described::class_node_lem, crate::proofs::Laws::flow_at))]
fn node_at(plan: &Plan, k: usize) -> Node
    requires { k < 47 }
    ensures { result ≡ node_at (tree_of plan.now) k }
{
    if k < 31 {
        class_node(plan, k)
    } else {
        flow_node(plan, k - 31)
    }
}

// The node of a class; of one that is not described, that of no class.
fn class_node(plan: &Plan, class: usize) -> Node
    requires { class < 31 }
    ensures { result ≡ class_node plan.now class }
{
    if plan.count <= class as u64 {
        new_node(0, 0)
    } else if class == 0 {
        new_node(31, plan.weights[class])
    } else {
        new_node(plan.parents[class], plan.weights[class])
    }
}

// The node of a flow, which gets its weight when the flow is opened.
fn flow_node(plan: &Plan, flow: usize) -> Node
    requires { flow < 16 }
    ensures { result ≡ flow_node plan.now flow }
{
    new_node(plan.classes[flow], 0)
}

// A node before any packet.
fn new_node(parent: u64, weight: u64) -> Node
    ensures { result ≡ new_node parent weight }
{
    Node {
        parent,
        weight,
        waiting: 0,
        start: Tag(0),
        finish: Tag(0),
    }
}
