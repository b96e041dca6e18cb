// The session of the class program: bytes are cut into lines, each line is answered by the desk, and the replies are written as lines.
#![tactic(auto)]

ghost use Rattle.std.specs.Prelude.{◌≡◌};
ghost use Rattle.text.specs.Lines.{Printed};
ghost use Rattle.text.specs.Feeding.{FeedsBy};
ghost use Rattle.class_replies.specs.Printing.{longest};
ghost use Rattle.class_session.specs.Whole.{answer_of};
ghost use Rattle.class_session.specs.Steps.{fresh_session, kept_as, step_of, finish_of};

use class_desk::{Command, Desk, Heard, Reply};
use feeding::{Fed, Line};
use units::Refusal;

// The desk, and the line that is not at its end yet.
#[derive(Drop)]
pub struct Session {
    pub desk: Desk,
    pub line: Line,
}

impl Session {
    // The session before any byte.
    pub fn fresh() -> Session
        ensures { result ≡ fresh_session }
    {
        Session {
            desk: Desk::fresh(),
            line: Line::fresh(),
        }
    }

    // Takes as much of the input as out has room for, and writes the replies to its lines at the start of out. It stays beside the loops of
    // `session` and of `lists`, which keeps no line: what is done at a byte is all that they are.
    pub fn feed(self, input: &[u8], out: &mut [u8]) -> Fed<Session>
        ensures { FeedsBy step_of longest self input.now out.old out.new result.state result.read result.written }
    {
        let Session { mut desk, mut line } = self;
        let mut read = 0;
        let mut written = 0;
        for b in input {
            if out.len() - written < 96 {
                break;
            }
            if *b == b'\n' {
                let heard = answer(desk, asked(&line));
                desk = heard.desk;
                written = class_replies::print(heard.reply, out, written);
                line.end();
            } else {
                line.keep(*b);
            }
            read += 1;
        }
        Fed {
            state: Session { desk, line },
            read,
            written,
        }
    }

    // Answers the last line, if it has a byte, at the end of the input.
    pub fn finish(self, out: &mut [u8; 96]) -> usize
        ensures { Printed (finish_of self) out.old out.new result }
    {
        if self.line.is_empty() {
            return 0;
        }
        self.feed(b"\n", out).written
    }
}

// The command that a line asks for, were it at its end; a line of more than 32 bytes asks for none.
fn asked(line: &Line) -> Option<Command>
    ensures { result ≡ kept_as line.now }
{
    class_lines::parse(line.whole()?)
}

// What the desk replies to a line; one that asks for no command leaves it as it was.
fn answer(desk: Desk, asked: Option<Command>) -> Heard
    ensures { result ≡ answer_of desk asked }
{
    match asked {
        Some(command) => desk.hear(command),
        None => Heard {
            desk,
            reply: Reply::Refused(Refusal::NoCommand),
        },
    }
}
