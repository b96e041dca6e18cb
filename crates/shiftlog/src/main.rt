// The program of shift logs: the first line of standard input is the command, and what comes after it is what the command is about. It
// answers on standard output; `write` reports on standard error, since its output is the log. What is answered is the libraries' to say.
// What cannot be written, and a command that there is not, is told on standard error. A read that fails is the end of the input to it:
// whoever starts it has the input whole.
#![tactic(auto)]

mod making;
mod output;
mod reading;

ghost use Rattle.std.specs.Prelude.{◌≤◌, length};

use log_commands::Command;
use making::write;
use output::tell;
use reading::{check, compare, show, tail};

fn main(rt: HostRuntime) {
    let mut stdin = rt.stdin();
    let mut input = [0u8; 131_200];
    let n = streams::fill(&mut stdin, &mut input);
    let line = line_end(&input[..n]);
    let start = (line + 1).min(n);
    // What could not be written has been told.
    let _ = match log_commands::parse(&input[..line]) {
        Some(Command::Check) => check(&rt, &input[start..n]),
        Some(Command::Show) => show(&rt, &input[start..n]),
        Some(Command::Write) => write(&rt, &mut input, start, n),
        Some(Command::Diff(first)) => compare(&rt, &input[start..n], first),
        Some(Command::Tail(first)) => tail(&rt, &input[start..n], first),
        None => {
            tell(&rt, b"shiftlog: there is no such command\n");
            Ok(())
        }
    };
}

// Where the first line ends: at its line feed, or with the input.
fn line_end(input: &[u8]) -> usize
    ensures { result ≤ length input.now }
{
    input
        .iter()
        .position(|&byte| byte == b'\n')
        .unwrap_or(input.len())
}
