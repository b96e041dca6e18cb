// The way up the tree of classes, from a flow to the root: what an offer, a begin or an end below it leaves at each node.
#![tactic(auto)]

mod ending;
mod offering;

ghost use Rattle.std.specs.Prelude.{◌≡◌, ℕ, ◌<◌};
ghost use Rattle.tree.specs.declared.Tree.{Tree};
ghost use Rattle.tree.specs.Tree.{node_of};
ghost use Rattle.ascent.specs.Ascent.{climb, way_up};

pub use ending::end;
pub use offering::offer;
use tree::Tree;
use units::LAST_FLOW;

// A way up has at most a flow, three classes and the root.
pub const LONGEST_WAY: usize = 5;

// What is done on a way up: a step at each child, which is told the class that the child hangs from, and another at the root.
pub trait Way {
    ghost step: { Self → Tree → ℕ → ℕ → Tree };

    ghost top: { Self → Tree → ℕ → Tree };

    // At the child in place k, which hangs from the class `up`.
    fn child(&self, tree: &mut Tree, k: usize, up: usize)
        requires { (k < 47) × (up < 31) }
        ensures { tree.new ≡ step self.now tree.old k up };

    // At the root, which stands in place k.
    fn root(&self, tree: &mut Tree, k: usize)
        requires { k < 47 }
        ensures { tree.new ≡ top self.now tree.old k };
}

// The tree after all of a flow's way up.
pub fn climb<W: Way>(way: &W, mut tree: Tree, flow: u64) -> Tree
    ensures { result ≡ climb (W.step way.now) (W.top way.now) way_up tree (node_of flow) }
{
    if LAST_FLOW < flow {
        return tree;
    }
    let mut k = 31 + flow as usize;
    for _ in 0..LONGEST_WAY {
        let up = tree.nodes[k].parent as usize;
        if 31 <= up {
            way.root(&mut tree, k);
            return tree;
        }
        way.child(&mut tree, k, up);
        k = up;
    }
    tree
}
