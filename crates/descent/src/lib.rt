// The way down the tree of classes, to the flow whose packet is begun next.
#![tactic(auto)]

ghost use Rattle.std.specs.Prelude.{◌≡◌};
ghost use Rattle.descent.specs.Descent.{descend_of, flow_met};

use places::Ranking;
use tree::{Node, Tree};

// The flow whose packet is begun next, 16 where nothing waits, as the definition `flow_met` counts, which the choice of the lane names.
pub fn flow_met(tree: &Tree) -> u64
    ensures { result ≡ flow_met tree.now }
{
    descend(tree, 0, 4)
}

// From a class to the child that goes first, until a flow is met, in at most so many steps.
fn descend(tree: &Tree, class: u64, left: u64) -> u64
    ensures { result ≡ descend_of left tree.now class }
{
    if left == 0 {
        return 16;
    }
    match places::first(&ChildrenOf(class), &tree.nodes) {
        Some((place, _)) if 31 <= place => place as u64 - 31,
        Some((place, _)) => descend(tree, place as u64, left - 1),
        None => 16,
    }
}

// The children of a class go by their start, and then by their place.
#[derive(Clone, Copy)]
struct ChildrenOf(u64);

impl Ranking<Node> for ChildrenOf {
    ghost use Rattle.descent.specs.Descent.{is_child, key_of};

    ghost held = { λ children x. is_child children.0 x };

    ghost key = { λ _ place x. key_of place x };

    // A child of the class that has something to send.
    fn waits(&self, node: Node) -> bool {
        0 < node.waiting && node.parent == self.0
    }

    // The earlier start goes first, then the lower place: the classes come before the flows.
    #[tactic(auto, unfolding(places::specs::Choice::comes_before))]
    fn goes_before(&self, place: usize, node: Node, other: usize, than: Node) -> bool {
        if node.start != than.start {
            return tags::earlier(node.start, than.start);
        }
        place < other
    }
}
