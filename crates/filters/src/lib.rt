// What the programs have in common that feed standard input to a state and write what it answers on standard output. A read or a write that
// fails ends them with a line on standard error: they have no exit status, and whoever starts one makes one of that line.
#![tactic(auto)]

ghost use Rattle.std.specs.Prelude.{◌≡◌, ◌≤◌, ℕ, List, length};
ghost use Rattle.text.specs.Lines.{Printed};
ghost use Rattle.text.specs.Feeding.{Step, FeedsBy};

use feeding::Fed;

// A program: what its input is fed to, and the name that it tells its failures by.
pub trait Filter {
    // What the input is fed to.
    type State: Drop;

    // The name of the program.
    const NAME: &'static str;

    // The state before any byte.
    ghost fresh_state: { Self.State };

    // What one byte does, and what is written for it.
    ghost step: { Self.State → ℕ → Step Self.State };

    // What is written at the end of the input.
    ghost last_text: { Self.State → List ℕ };

    // The state before any byte.
    fn fresh() -> Self::State
        ensures { result ≡ fresh_state };

    // Takes as much of the input as out has room for, and writes the answers to its lines at the start of out.
    fn feed(state: Self::State, input: &[u8], out: &mut [u8]) -> Fed<Self::State>
        ensures { FeedsBy step 96 state input.now out.old out.new result.state result.read result.written };

    // Answers the last line, if it has a byte, at the end of the input.
    fn finish(state: Self::State, out: &mut [u8; 96]) -> usize
        ensures { Printed (last_text state) out.old out.new result };
}

// Why a program ends before its input does.
#[derive(Clone, Copy, Debug, PartialEq, Eq)]
enum Failed {
    Unread,
    Unwritten,
}

// Runs a program to the end of its input, or tells why it could not.
// No contract of it can say what is read or written; it is safe, ends, and rests on the clauses of Filter (docs/EXCEPTIONS.md, "The program's own loop").
pub fn run<P: Filter>(rt: &HostRuntime) {
    if let Err(failed) = answer::<P>(rt) {
        let what = match failed {
            Failed::Unread => "input could not be read",
            Failed::Unwritten => "output could not be written",
        };
        let _ = eprintln!(rt; "{}: the {what}", P::NAME);
    }
}

// Feeds all of the input to a fresh state, and writes what it answers. A line that a failed read cuts short is no line.
fn answer<P: Filter>(rt: &HostRuntime) -> Result<(), Failed> {
    let mut input = [0; 65_536];
    let mut out = [0; 65_536];
    let state = feed_input::<P>(rt, P::fresh(), &mut input, &mut out)?;
    let mut last = [0; 96];
    let n = P::finish(state, &mut last);
    write(rt, &last[..n])
}

// Feeds piece after piece until the input ends, and writes the answers as often as out is full: how often that is no range can say. A proved
// loop has to end, and nothing says that the input does: the loop counts its reads, up to a number that no run uses up. The state stays in
// this one function meanwhile, since each that hands it on copies it.
fn feed_input<P: Filter>(
    rt: &HostRuntime,
    mut state: P::State,
    input: &mut [u8],
    out: &mut [u8],
) -> Result<P::State, Failed>
    requires { 96 ≤ length out.old }
{
    let mut stdin = rt.stdin();
    for _ in 0..u64::MAX {
        let n = streams::piece(&mut stdin, input).map_err(|_| Failed::Unread)?;
        if n == 0 {
            break;
        }
        let mut piece = &input[..n];
        while !piece.is_empty() {
            let fed = P::feed(state, piece, out);
            state = fed.state;
            write(rt, &out[..fed.written])?;
            piece = &piece[fed.read..];
        }
    }
    Ok(state)
}

// Writes answers.
fn write(rt: &HostRuntime, answers: &[u8]) -> Result<(), Failed> {
    streams::put(&mut rt.stdout(), answers).map_err(|_| Failed::Unwritten)
}
