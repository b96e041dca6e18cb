// Which records are well formed.
ghost use Rattle.std.specs.Prelude.{◌≡◌};
ghost use Rattle.log_format.specs.Format.{bad_cell, bad_opening, bad_event};
ghost use Rattle.log_format.specs.Faults.{two_of};
ghost use Rattle.log_format.specs.Told.{kind_told};

use crate::bytes::two;
use crate::{Fault, Form};
use units::LAST_FLOW;

// What an event is; the number is its first byte.
#[derive(Clone, Copy, Debug, PartialEq, Eq)]
pub enum Kind {
    OpenTurn = 0,
    LostTurn = 1,
    Cell = 2,
    Packet = 3,
    Begin = 4,
    End = 5,
}

// The kind of a number; an event with any other number is a bad record.
impl TryFrom<u64> for Kind {
    type Error = Fault;

    ghost try_from_gives = { λ number kind. kind ≡ kind_told number };

    fn try_from(number: u64) -> Result<Kind, Fault> {
        match number {
            0 => Ok(Kind::OpenTurn),
            1 => Ok(Kind::LostTurn),
            2 => Ok(Kind::Cell),
            3 => Ok(Kind::Packet),
            4 => Ok(Kind::Begin),
            5 => Ok(Kind::End),
            _ => Err(Fault::BadRecord),
        }
    }
}

// Whether an opening is none that a body may hold, whose flows are not below the least and whose numbers are 1 to most.
pub fn bad_opening(most: u64, least: u64, flow: u64, number: u64) -> bool
    ensures { result ≡ bad_opening most least flow number }
{
    flow < least || LAST_FLOW < flow || units::outside(number, most)
}

// Whether an event is none that a log of this form may hold.
pub fn bad_event(form: Form, kind: u64, flow: u64, number: u64) -> bool
    ensures { result ≡ bad_event form kind flow number }
{
    match Kind::try_from(kind) {
        Ok(Kind::Packet) => LAST_FLOW < flow || units::bad_length(number),
        Ok(Kind::Cell) => LAST_FLOW < flow || bad_cell(form, number),
        Ok(_) => 0 < flow || 0 < number,
        Err(_) => true,
    }
}

// Whether three bytes are no opening that a body may hold.
pub fn no_opening(most: u64, least: u64, a: u8, b: u8, c: u8) -> bool
    ensures { result ≡ bad_opening most least a (two_of b c) }
{
    bad_opening(most, least, u64::from(a), two(b, c))
}

// Whether four bytes are no event that a log of this form may hold.
pub fn no_event(form: Form, a: u8, b: u8, c: u8, d: u8) -> bool
    ensures { result ≡ bad_event form a b (two_of c d) }
{
    bad_event(form, u64::from(a), u64::from(b), two(c, d))
}

// Whether a cell may not have this number in a log of this form.
fn bad_cell(form: Form, number: u64) -> bool
    ensures { result ≡ bad_cell form number }
{
    match form {
        Form::Flow => 0 < number,
        Form::Own => units::bad_deadline(number),
    }
}
