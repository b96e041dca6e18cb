// Two bodies, byte by byte.
ghost use Rattle.std.specs.Prelude.{◌≡◌, ◌≤◌, length, drop};
ghost use Rattle.log_format.specs.Pairs.{differ_from};

// The first place from start on where two logs differ, within the shorter.
pub(crate) fn differ(a: &[u8], b: &[u8], start: usize) -> Option<usize>
    requires { (start ≤ length a.now) × (start ≤ length b.now) }
    ensures { result ≡ differ_from start (drop start a.now) (drop start b.now) }
{
    for at in start..a.len().min(b.len()) {
        if a[at] != b[at] {
            return Some(at);
        }
    }
    None
}
