// The session: bytes are cut into lines, each line is answered by the station, and the answers are written as lines.
#![tactic(auto)]

ghost use Rattle.std.specs.Prelude.{◌≡◌};
ghost use Rattle.text.specs.Lines.{Printed};
ghost use Rattle.text.specs.Feeding.{FeedsBy};
ghost use Rattle.replies.specs.Printing.{line_of, longest};
ghost use Rattle.session.specs.Whole.{answer_of};
ghost use Rattle.session.specs.Steps.{fresh_session, kept_as, step_of, finish_of};

use feeding::{Fed, Line};
use station::{Call, Reply, Station};
use units::Refusal;

// The station, and the line that is not at its end yet.
#[derive(Drop)]
pub struct Session {
    pub station: Station,
    pub line: Line,
}

impl Session {
    // The session before any byte.
    pub fn fresh() -> Session
        ensures { result ≡ fresh_session }
    {
        Session {
            station: Station::fresh(),
            line: Line::fresh(),
        }
    }

    // Takes as much of the input as out has room for, and writes the answers of its lines at the start of out. The station stays where it is
    // meanwhile: a line copies neither lane.
    pub fn feed(self, input: &[u8], out: &mut [u8]) -> Fed<Session>
        ensures { FeedsBy step_of longest self input.now out.old out.new result.state result.read result.written }
    {
        let Session {
            mut station,
            mut line,
        } = self;
        let mut read = 0;
        let mut written = 0;
        for b in input {
            if out.len() - written < 96 {
                break;
            }
            if *b == b'\n' {
                let reply = answer(&mut station, asked(&line));
                written = replies::print(reply, out, written);
                line.end();
            } else {
                line.keep(*b);
            }
            read += 1;
        }
        Fed {
            state: Session { station, line },
            read,
            written,
        }
    }

    // Answers the last line, if it has a byte, at the end of the input.
    pub fn finish(self, out: &mut [u8; 96]) -> usize
        ensures { Printed (finish_of self) out.old out.new result }
    {
        if self.line.is_empty() {
            return 0;
        }
        self.feed(b"\n", out).written
    }
}

// The call that a line asks for, were it at its end; a line of more than 32 bytes asks for none.
fn asked(line: &Line) -> Option<Call>
    ensures { result ≡ kept_as line.now }
{
    lines::parse(line.whole()?)
}

// What the station replies to a line; one that asks for no call leaves it as it was.
fn answer(station: &mut Station, asked: Option<Call>) -> Reply
    ensures station { station.new ≡ (answer_of station.old asked).station }
    ensures text { line_of result ≡ (answer_of station.old asked).text }
{
    match asked {
        Some(call) => station.call_at(call),
        None => Reply::Urgent(urgent::Answer::Refused(Refusal::NoCommand)),
    }
}
