// A packet ended: each node on its flow's way up that has more to send starts at its finish, and each class takes that into its times.
ghost use Rattle.std.specs.Prelude.{◌≡◌};
ghost use Rattle.ascent.specs.Ascent.{end_step, end_top, ended_from};

use crate::Way;
use tree::Tree;

// An end on its way up.
#[derive(Clone, Copy)]
struct Ending;

impl Way for Ending {
    ghost step = { λ way. end_step };

    ghost top = { λ way. end_top };

    // A child with more to send starts at its finish, and the class that it hangs from takes that finish.
    fn child(&self, tree: &mut Tree, k: usize, up: usize) {
        let x = tree.nodes[k];
        let above = tree.nodes[up];
        tree.nodes[k] = tree::ended(x);
        tree.classes[up] = tree::ended_class(x, above, tree.classes[up]);
    }

    // The root stays as it is.
    fn root(&self, _tree: &mut Tree, _k: usize) {}
}

// The tree after the packet of this flow in service ended.
#[tactic(auto, unfolding(crate::specs::Ascent::ended_from))]
pub fn end(tree: Tree, flow: u64) -> Tree
    ensures { result ≡ ended_from tree flow }
{
    crate::climb(&Ending, tree, flow)
}
