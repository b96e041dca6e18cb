// Setting up: the tree of classes that a description gives, and a lane with that tree.
#![tactic(auto)]

mod nodes;

ghost use Rattle.std.specs.Prelude.{◌≡◌};
ghost use Rattle.classes.specs.Lane.{lane_of};
ghost use Rattle.planting.specs.SetUp.{fresh_lane, set_up_of};

use classes::Classes;
use packets::Queue;
use plans::Plan;
use units::Refusal;

// The lane after a tree was described to it, and whether it was set up.
#[derive(Drop)]
pub struct Planted {
    pub lane: Classes,
    pub answer: Result<(), Refusal>,
}

// A lane whose tree is one class with every flow in it, before any call.
pub fn fresh() -> Classes
    ensures { result ≡ fresh_lane }
{
    lane_of(&Plan {
        count: 1,
        parents: [0; 31],
        weights: [1; 31],
        classes: [0; 16],
    })
}

// A new lane with the tree that is described; a description that breaks a rule leaves the lane as it came.
#[tactic(auto, unfolding(crate::specs::SetUp::set_up_of, units::specs::Refusals::first_of))]
pub fn set_up(lane: Classes, plan: &Plan) -> Planted
    ensures { result ≡ set_up_of lane plan.now }
{
    if plans::broken(plan) {
        return Planted {
            lane,
            answer: Err(Refusal::BadTree),
        };
    }
    Planted {
        lane: lane_of(plan),
        answer: Ok(()),
    }
}

// The lane of a tree that is described, before any call.
fn lane_of(plan: &Plan) -> Classes
    ensures { result ≡ lane_of plan.now }
{
    Classes {
        tree: nodes::tree_of(plan),
        queue: Queue::fresh(),
    }
}
