// Lists of declarations as lines: bytes are cut into lines, each line is judged by the link test, and the verdicts are written as lines.
#![tactic(auto)]

mod judging;
mod taking;

ghost use Rattle.std.specs.Prelude.{◌≡◌};
ghost use Rattle.text.specs.Lines.{Printed};
ghost use Rattle.text.specs.Feeding.{FeedsBy};
ghost use Rattle.lists.specs.Printing.{longest};
ghost use Rattle.lists.specs.Steps.{fresh_reading, step_of, finish_of};

use feeding::Fed;
use judging::print;
use link::Declaration;
use taking::Hand;

// A line as far as it was read: what is at hand, and its first declarations, count of them. Memory is fixed, so seventeen are
// kept: a longer list is refused as they are.
#[derive(Drop)]
pub struct Reading {
    pub hand: Hand,
    pub count: usize,
    pub items: [Declaration; 17],
}

impl Reading {
    // Nothing read yet.
    pub fn fresh() -> Reading
        ensures { result ≡ fresh_reading }
    {
        Reading {
            hand: Hand::fresh(),
            count: 0,
            items: [Declaration {
                burst: 0,
                period: 0,
                deadline: 0,
            }; 17],
        }
    }

    // Takes as much of the input as out has room for, and writes the verdicts on its lines at the start of out.
    pub fn feed(self, input: &[u8], out: &mut [u8]) -> Fed<Reading>
        ensures { FeedsBy step_of longest self input.now out.old out.new result.state result.read result.written }
    {
        let mut reading = self;
        let mut read = 0;
        let mut written = 0;
        for b in input {
            if out.len() - written < 96 {
                break;
            }
            if *b == b'\n' {
                written = print(reading.judge(), out, written);
                reading = Reading::fresh();
            } else {
                reading.keep(*b);
            }
            read += 1;
        }
        Fed {
            state: reading,
            read,
            written,
        }
    }

    // Answers the last line, if it has a byte, at the end of the input.
    pub fn finish(self, out: &mut [u8; 96]) -> usize
        ensures { Printed (finish_of self) out.old out.new result }
    {
        if !self.hand.some {
            return 0;
        }
        self.feed(b"\n", out).written
    }
}
