// A packet is offered: each node on its flow's way up counts it, and starts where nothing waited below it.
ghost use Rattle.std.specs.Prelude.{◌≡◌};
ghost use Rattle.ascent.specs.Ascent.{offer_step, offer_top, offered_to};

use crate::Way;
use tree::Tree;

// An offer on its way up.
#[derive(Clone, Copy)]
struct Offering;

impl Way for Offering {
    ghost step = { λ way. offer_step };

    ghost top = { λ way. offer_top };

    // A child counts the packet, and may start at the time of the class that it hangs from.
    fn child(&self, tree: &mut Tree, k: usize, up: usize) {
        tree.nodes[k] = tree::offered(tree.nodes[k], tree.classes[up].time);
    }

    // The root counts it.
    fn root(&self, tree: &mut Tree, k: usize) {
        tree.nodes[k] = tree::offered_root(tree.nodes[k]);
    }
}

// The tree after an offer to this flow.
#[tactic(auto, unfolding(crate::specs::Ascent::offered_to))]
pub fn offer(tree: Tree, flow: u64) -> Tree
    ensures { result ≡ offered_to tree flow }
{
    crate::climb(&Offering, tree, flow)
}
