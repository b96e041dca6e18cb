// The answers, as lines and as bytes: each function answers nothing where it could not write.
ghost use Rattle.std.specs.Prelude.{◌+◌, ◌*◌, ◌≤◌, length};

// Writes a short word and a few numbers as a line.
pub(crate) fn line(rt: &HostRuntime, word: &[u8], numbers: &[u64]) -> Option<()>
    requires { length word.now + 21 * length numbers.now + 1 ≤ 128 }
{
    let mut text = [0u8; 128];
    let n = text::line(&mut text, 0, word, numbers);
    raw(rt, &text[..n])
}

// Writes how many bytes there are as a line, after a short word, and then the bytes as they are.
pub(crate) fn counted(rt: &HostRuntime, word: &[u8], bytes: &[u8]) -> Option<()>
    requires { length word.now ≤ 8 }
{
    line(rt, word, &[bytes.len() as u64])?;
    raw(rt, bytes)
}

// Writes bytes as they are.
fn raw(rt: &HostRuntime, bytes: &[u8]) -> Option<()> {
    let mut output = rt.stdout();
    streams::put(&mut output, bytes).ok()
}
