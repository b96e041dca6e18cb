// The shift log: what it holds, which records are well formed, its bytes, and what is wrong with bytes that are no log.
#![tactic(auto)]

mod bytes;
mod records;

ghost use Rattle.std.specs.Prelude.{◌≡◌};
ghost use Rattle.log_format.specs.Format.{first_byte};
ghost use Rattle.log_format.specs.Faults.{form_of};
ghost use Rattle.log_format.specs.Reading.{is_first};
ghost use Rattle.log_format.specs.Refusals.{fault_number};
ghost use Rattle.log_format.specs.Told.{form_told};

pub use bytes::{four, two};
pub use records::{Kind, bad_event, bad_opening, no_event, no_opening};

// How a log tells a cell's deadline: as that of its flow's opening, or as the cell's own. The number is a log's first byte.
#[derive(Clone, Copy, Debug, PartialEq, Eq)]
pub enum Form {
    Flow = 1,
    Own = 2,
}

// Why bytes are no log, with the number by which the rules name it.
#[derive(Clone, Copy, Debug, PartialEq, Eq)]
pub enum Fault {
    FirstByte = 20,
    TableField = 21,
    BadRecord = 22,
    EndsEarly = 23,
    ByteTooMany = 24,
}

// What is wrong with bytes that are no log, and the place where it is, counted from their start.
#[derive(Clone, Copy, Debug, PartialEq, Eq)]
pub struct Flaw {
    pub fault: Fault,
    pub place: usize,
}

// What a log holds: its form, and how many records each body has.
#[derive(Clone, Copy, Debug, PartialEq, Eq)]
pub struct Contents {
    pub form: Form,
    pub urgent: usize,
    pub fair: usize,
    pub events: usize,
}

// Why a log is not written: the position of its first bad record, or that it is too long.
#[derive(Clone, Copy, Debug, PartialEq, Eq)]
pub enum Unwritten {
    BadRecord(usize),
    TooLong,
}

impl Form {
    // The first byte of a log of this form.
    pub fn first_byte(self) -> u8
        ensures { result ≡ first_byte self }
    {
        self as u8
    }

    // Whether a byte is the first of any log.
    pub fn is_first(byte: u8) -> bool
        ensures { result ≡ is_first byte }
    {
        byte == 1 || byte == 2
    }

    // The form that a first byte tells.
    #[tactic(auto, unfolding(crate::specs::Faults::form_of))]
    pub fn told_by(byte: u8) -> Form
        ensures { result ≡ form_of byte }
    {
        match byte {
            2 => Form::Own,
            _ => Form::Flow,
        }
    }
}

// The form that a first byte tells; any other byte is the fault of a log that starts with it.
impl TryFrom<u8> for Form {
    type Error = Fault;

    ghost try_from_gives = { λ byte form. form ≡ form_told byte };

    fn try_from(byte: u8) -> Result<Form, Fault> {
        if Form::is_first(byte) {
            return Ok(Form::told_by(byte));
        }
        Err(Fault::FirstByte)
    }
}

impl Fault {
    // The number by which the rules name the fault.
    pub fn number(self) -> u64
        ensures { result ≡ fault_number self }
    {
        self as u64
    }
}
