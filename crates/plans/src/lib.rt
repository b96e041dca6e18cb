// A tree of classes as it is described, and whether it keeps the rules.
#![tactic(auto)]

mod judging;

ghost use Rattle.std.specs.Prelude.{◌≡◌};
ghost use Rattle.plans.specs.Plans.{parent_in, weight_in, class_in};

pub use judging::broken;

// How many classes there are, what each hangs from, its weight, and the class of each flow. What class 0, the root, hangs from is not read,
// nor is what stands from the count on. The arrays stay beside each other, since C describes a tree so (include/tuhkeliar.h).
#[repr(C)]
#[derive(Clone, Copy, Debug, PartialEq, Eq)]
pub struct Plan {
    pub count: u64,
    pub parents: [u64; 31],
    pub weights: [u64; 31],
    pub classes: [u64; 16],
}

impl Plan {
    // The class that a class hangs from, 0 of a number that no class has.
    pub(crate) fn parent_in(&self, class: u64) -> u64
        ensures { result ≡ parent_in self.now class }
    {
        self.parents.get(class as usize).copied().unwrap_or(0)
    }

    // The weight of a class, 0 of a number that no class has.
    pub(crate) fn weight_in(&self, class: u64) -> u64
        ensures { result ≡ weight_in self.now class }
    {
        self.weights.get(class as usize).copied().unwrap_or(0)
    }

    // The class that a flow hangs from, 0 of a number that no flow has.
    pub(crate) fn class_in(&self, flow: u64) -> u64
        ensures { result ≡ class_in self.now flow }
    {
        self.classes.get(flow as usize).copied().unwrap_or(0)
    }
}
