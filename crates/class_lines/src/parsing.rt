// Reading a line: its shape, and the command of its letter.
ghost use Rattle.std.specs.Prelude.{◌≡◌};
ghost use Rattle.class_lines.specs.Reading.{word_of, one_of, two_of, read_command};

use class_desk::Command;
use classes::Call;
use shapes::Shape;

// The command that a line asks for, if it is one's text.
pub fn parse(line: &[u8]) -> Option<Command>
    ensures { result ≡ read_command line.now }
{
    match shapes::read(line)? {
        Shape::Word(letter) => word(letter),
        Shape::One(letter, a) => one(letter, a),
        Shape::Two(letter, a, b) => two(letter, a, b),
    }
}

// A command of one letter.
fn word(letter: u8) -> Option<Command>
    ensures { result ≡ word_of letter }
{
    match letter {
        b'S' => Some(Command::SetUp),
        b'b' => Some(Command::Ask(Call::Begin)),
        b'e' => Some(Command::Ask(Call::End)),
        _ => None,
    }
}

// A command of a letter and one number.
fn one(letter: u8, a: u64) -> Option<Command>
    ensures { result ≡ one_of letter a }
{
    match letter {
        b'c' => Some(Command::Ask(Call::Close(a))),
        _ => None,
    }
}

// A command of a letter and two numbers.
fn two(letter: u8, a: u64, b: u64) -> Option<Command>
    ensures { result ≡ two_of letter a b }
{
    match letter {
        b'K' => Some(Command::Class(a, b)),
        b'G' => Some(Command::Hang(a, b)),
        b'F' => Some(Command::Ask(Call::Open(a, b))),
        b'f' => Some(Command::Ask(Call::Offer(a, b))),
        _ => None,
    }
}
