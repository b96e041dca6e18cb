// Which record of a log that is lent is the first bad one.
#![tactic(auto)]

ghost use Rattle.std.specs.Prelude.{◌≡◌, map};
ghost use Rattle.log_format.specs.Format.{bad_opening, bad_event};
ghost use Rattle.log_format.specs.Words.{opening_of, event_of, lent_log};
ghost use Rattle.log_judging.specs.Judging.{bad_openings, bad_events, bad_records, first_bad};

use log_format::Form;

// The greatest deadline.
const MOST_DEADLINE: u64 = 4_096;

// The greatest weight.
const MOST_WEIGHT: u64 = 16;

// The position of the first bad record, through urgent openings, fair openings and events.
pub fn first_bad(form: Form, urgent: &[u32], fair: &[u32], events: &[u32]) -> Option<usize>
    ensures { result ≡ first_bad (bad_records (lent_log form urgent.now fair.now events.now)) }
{
    if let Some(k) = first_bad_opening(MOST_DEADLINE, urgent) {
        return Some(k);
    }
    if let Some(k) = first_bad_opening(MOST_WEIGHT, fair) {
        return Some(urgent.len() + k);
    }
    let k = first_bad_event(form, events)?;
    Some(urgent.len() + fair.len() + k)
}

// The position of the first bad opening of a body.
fn first_bad_opening(most: u64, words: &[u32]) -> Option<usize>
    ensures { result ≡ first_bad (bad_openings most 0 (map opening_of words.now)) }
{
    let mut least = 0;
    for (i, word) in words.iter().enumerate() {
        if no_opening(most, least, *word) {
            return Some(i);
        }
        least = u64::from(word % 256) + 1;
    }
    None
}

// The position of the first bad event. The search among openings hands the least flow on, and stays a loop of its own.
fn first_bad_event(form: Form, words: &[u32]) -> Option<usize>
    ensures { result ≡ first_bad (bad_events form (map event_of words.now)) }
{
    for (i, word) in words.iter().enumerate() {
        if no_event(form, *word) {
            return Some(i);
        }
    }
    None
}

// Whether a number is no opening that a body may hold, whose flows are not below the least and whose numbers are 1 to most.
fn no_opening(most: u64, least: u64, word: u32) -> bool
    ensures { result ≡ bad_opening most least (opening_of word).flow (opening_of word).number }
{
    log_format::bad_opening(most, least, u64::from(word % 256), u64::from(word / 256))
}

// Whether a number is no event that a log of this form may hold.
fn no_event(form: Form, word: u32) -> bool
    ensures { result ≡ bad_event form (event_of word).kind (event_of word).flow (event_of word).number }
{
    let [kind, flow, low, high] = word.to_le_bytes();
    log_format::no_event(form, kind, flow, low, high)
}
