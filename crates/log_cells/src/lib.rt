// The events of a log that was read, one by one, each cell with its own deadline.
#![tactic(auto)]

ghost use Rattle.std.specs.Prelude.{◌≡◌, ◌+◌, ◌*◌, ◌≤◌, length};
ghost use Rattle.log_format.specs.Own.{opening_deadline};
ghost use Rattle.log_format.specs.Reading.{openings_at};
ghost use Rattle.log_cells.specs.Own.{own_word, own_found};

use log_format::{Contents, Form, Kind};

// Where the urgent openings start.
const URGENT: usize = 25;

// The event of an index, a cell with its own deadline: where the log tells none, that of its flow's opening.
pub fn own_event(log: &[u8], c: Contents, k: usize) -> Option<u32>
    ensures { result ≡ own_found log.now c k }
{
    let word = log_records::event(log, c, k)?;
    Some(own_word(log, c.form, c.urgent, word))
}

// An event of a log that has this form and so many urgent openings, with its cell's own deadline.
fn own_word(log: &[u8], form: Form, openings: usize, word: u32) -> u32
    requires { 25 + 3 * openings ≤ length log.now }
    ensures { result ≡ own_word form (openings_at log.now 25 openings) word }
{
    let [kind, flow, ..] = word.to_le_bytes();
    if kind != Kind::Cell as u8 {
        return word;
    }
    match form {
        Form::Flow => {
            let [low, high] = deadline_of(log, openings, flow).to_le_bytes();
            u32::from_le_bytes([kind, flow, low, high])
        }
        Form::Own => word,
    }
}

// The deadline with which a flow was opened, by the first of so many openings that is its own; 1 where none is.
fn deadline_of(log: &[u8], openings: usize, flow: u8) -> u16
    requires { 25 + 3 * openings ≤ length log.now }
    ensures { result ≡ opening_deadline (openings_at log.now 25 openings) flow }
{
    for k in 0..openings {
        let place = URGENT + 3 * k;
        if log[place] == flow {
            return u16::from_le_bytes([log[place + 1], log[place + 2]]);
        }
    }
    1
}
