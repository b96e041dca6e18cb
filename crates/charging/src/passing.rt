// Whether a packet may be begun: no finish on its flow's way up passes the largest tag.
ghost use Rattle.std.specs.Prelude.{◌≡◌};
ghost use Rattle.ascent.specs.Ascent.{passes_for};

use ascent::LONGEST_WAY;
use tree::Tree;
use units::LAST_FLOW;

// Whether some finish would pass the largest tag, if a packet of this length of this flow were begun. It changes no tree and ends at the
// first such finish, so it is no `Way`.
pub fn passes(tree: &Tree, flow: u64, length: u64) -> bool
    ensures { result ≡ passes_for tree.now flow length }
{
    if LAST_FLOW < flow {
        return false;
    }
    let mut k = 31 + flow as usize;
    for _ in 0..LONGEST_WAY {
        let x = tree.nodes[k];
        let up = x.parent as usize;
        if 31 <= up {
            return false;
        }
        if tree::passes(x, length) {
            return true;
        }
        k = up;
    }
    false
}
