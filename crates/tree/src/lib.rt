// The tree of classes: what each class and each flow is to the class that it hangs from, and the times that each class runs by.
#![tactic(auto)]

mod steps;

ghost use Rattle.std.specs.Prelude.{◌≡◌};
ghost use Rattle.tree.specs.Tree.{node_of, node_at, with_node};
ghost use Rattle.tree.specs.Steps.{weighed_node};

pub use steps::{
    begun, begun_class, begun_root, ended, ended_class, offered, offered_root, passes,
};
use units::{LAST_FLOW, Tag};

// What a class or a flow is to the class that it hangs from: that class, its weight there, how many packets wait below it, its start and its
// last finish.
#[repr(C)]
#[derive(Clone, Copy, Debug, PartialEq, Eq)]
pub struct Node {
    pub parent: u64,
    pub weight: u64,
    pub waiting: u64,
    pub start: Tag,
    pub finish: Tag,
}

// The virtual time of a class, and the largest finish of all that ended below it.
#[repr(C)]
#[derive(Clone, Copy, Debug, PartialEq, Eq)]
pub struct Class {
    pub time: Tag,
    pub largest: Tag,
}

// The nodes, of which 0 to 30 are the classes and 31 + f is flow f, and the times of the classes. The root is node 0 and hangs from 31, which
// is no class: C reads a tree so (include/tuhkeliar.h).
#[repr(C)]
#[derive(Drop)]
pub struct Tree {
    pub nodes: [Node; 47],
    pub classes: [Class; 31],
}

impl Tree {
    // The node of a flow, an empty one where there is no such flow.
    pub fn flow_node(&self, flow: u64) -> Node
        ensures { result ≡ node_at self.now (node_of flow) }
    {
        if LAST_FLOW < flow {
            return Node {
                parent: 0,
                weight: 0,
                waiting: 0,
                start: Tag(0),
                finish: Tag(0),
            };
        }
        self.nodes[31 + flow as usize]
    }

    // The tree where a flow has this weight among the children of its class.
    pub fn weigh(mut self, flow: u64, weight: u64) -> Tree
        ensures { result ≡ with_node self (node_of flow) (weighed_node weight (node_at self (node_of flow))) }
    {
        if flow <= LAST_FLOW {
            let place = 31 + flow as usize;
            self.nodes[place].weight = weight;
        }
        self
    }
}
