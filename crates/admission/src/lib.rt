// Admission: whether all that a lent list of flows declares can be sent in time, worked on plain numbers.
#![tactic(auto)]

ghost use Rattle.std.specs.Prelude.{◌≡◌, ◌≤◌, length};
ghost use Rattle.std.specs.List.{All};
ghost use Rattle.link.specs.Limits.{too_long};
ghost use Rattle.link.specs.Demand.{demand_one, demand_of, least_failing};
ghost use Rattle.link.specs.Rate.{rate_of, greatest_of};
ghost use Rattle.link.specs.Verdicts.{admits, by_numbers, horizon_of, grounds_of, admit_of};

use link::{Declaration, Objection};
use units::Refusal;

// The verdict on a lent list of declarations, of any length: by what is held against it before its demand, else by its demand.
pub fn admit(list: &[Declaration]) -> Result<(), Objection>
    ensures { result ≡ admit_of list.now }
{
    grounds(list)?;
    tested(list)
}

// What is held against a list before its demand: its length, then a bad number, then its rate.
fn grounds(list: &[Declaration]) -> Result<(), Objection>
    ensures { result ≡ grounds_of (too_long list.now) list.now }
{
    if 16 < list.len() {
        return Err(Objection::Refused(Refusal::ListTooLong));
    }
    first_bad(list)?;
    if 5040 < rate(list) {
        return Err(Objection::Rate);
    }
    Ok(())
}

// The verdict by the numbers alone: the first bad declaration is told, with its place.
fn first_bad(list: &[Declaration]) -> Result<(), Objection>
    ensures { result ≡ by_numbers 0 list.now }
{
    for (place, declaration) in list.iter().enumerate() {
        declaration.judged(place)?;
    }
    Ok(())
}

// How many cells the periods of all declarations together bring in every 5,040 slots.
fn rate(list: &[Declaration]) -> u64
    requires { length list.now ≤ 16 }
    ensures { result ≡ rate_of list.now }
{
    list.iter()
        .map(|declaration| link::floor_of(5040, declaration.period))
        .sum()
}

// The verdict by the demand alone, tested to the greatest deadline plus 5,039. The smallest t that fails is looked for only where one does.
fn tested(list: &[Declaration]) -> Result<(), Objection>
    requires few { length list.now ≤ 16 }
    requires short { All (λ d. d.burst ≤ 16) list.now }
    requires soon { greatest_of list.now ≤ 4096 }
    ensures { result ≡ least_failing (horizon_of list.now) list.now }
{
    let horizon = greatest(list) + 5039;
    if keeps(list, horizon) {
        return Ok(());
    }
    least_failing(list, horizon)
}

// The greatest deadline, 0 where there is no declaration.
fn greatest(list: &[Declaration]) -> u64
    ensures { result ≡ greatest_of list.now }
{
    list.iter()
        .map(|declaration| declaration.deadline)
        .max()
        .unwrap_or(0)
}

// Whether no t from 1 to the horizon fails, asked from the last one down; every t from `passed` on has passed. Demand never falls as
// slots pass: where by t no more than t is due, each t from that demand on passes with it, and need not be asked;
// no range counts such steps.
fn keeps(list: &[Declaration], horizon: u64) -> bool
    requires few { length list.now ≤ 16 }
    requires short { All (λ d. d.burst ≤ 16) list.now }
    requires tested { horizon ≤ 9135 }
    ensures { result ≡ admits (least_failing horizon list.now) }
{
    let mut passed = horizon + 1;
    while 1 < passed {
        let t = passed - 1;
        let due = demand(list, t);
        if t < due {
            return false;
        }
        passed = due;
    }
    true
}

// The smallest t from 1 to the horizon by which more than t cells can be due.
fn least_failing(list: &[Declaration], horizon: u64) -> Result<(), Objection>
    requires few { length list.now ≤ 16 }
    requires short { All (λ d. d.burst ≤ 16) list.now }
    requires tested { horizon ≤ 9135 }
    ensures { result ≡ least_failing horizon list.now }
{
    for t in 1..=horizon {
        if t < demand(list, t) {
            return Err(Objection::FailsAt(t));
        }
    }
    Ok(())
}

// How many cells all declarations together can have due by slot t. No list is tested past 9,135: the longest deadline and 5,039.
fn demand(list: &[Declaration], t: u64) -> u64
    requires few { length list.now ≤ 16 }
    requires short { All (λ d. d.burst ≤ 16) list.now }
    requires tested { t ≤ 9135 }
    ensures { result ≡ demand_of list.now t }
{
    list.iter()
        .map(|declaration| demand_one(declaration, t))
        .sum()
}

// How many cells one declaration can have due by slot t.
fn demand_one(declaration: &Declaration, t: u64) -> u64
    requires { (declaration.now.burst ≤ 16) × (t ≤ 9135) }
    ensures { result ≡ demand_one declaration.now t }
{
    if declaration.deadline <= t {
        declaration.burst + link::floor_of(t - declaration.deadline, declaration.period)
    } else {
        0
    }
}
