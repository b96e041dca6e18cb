// A packet is begun: each node on its flow's way up has one less to send and a new finish, and each class goes on to its child's start.
ghost use Rattle.std.specs.Prelude.{◌≡◌};
ghost use Rattle.ascent.specs.Ascent.{begin_step, begin_top, begun_from};

use ascent::Way;
use tree::Tree;

// A begin of a packet of this length on its way up.
#[derive(Clone, Copy)]
struct Beginning {
    length: u64,
}

impl Way for Beginning {
    ghost step = { λ way. begin_step way.length };

    ghost top = { λ way. begin_top };

    // A child gets its finish, and the class that it hangs from goes on to its start.
    fn child(&self, tree: &mut Tree, k: usize, up: usize) {
        let x = tree.nodes[k];
        tree.nodes[k] = tree::begun(x, self.length);
        tree.classes[up] = tree::begun_class(x, tree.classes[up]);
    }

    // The root has one less to send.
    fn root(&self, tree: &mut Tree, k: usize) {
        tree.nodes[k] = tree::begun_root(tree.nodes[k]);
    }
}

// The tree after a packet of this length of this flow is begun.
#[tactic(auto, unfolding(ascent::specs::Ascent::begun_from))]
pub fn begin(tree: Tree, flow: u64, length: u64) -> Tree
    ensures { result ≡ begun_from tree flow length }
{
    ascent::climb(&Beginning { length }, tree, flow)
}
