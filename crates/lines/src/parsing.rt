// Reading a line: its shape, and the call of its letter.
ghost use Rattle.std.specs.Prelude.{◌≡◌};
ghost use Rattle.lines.specs.Reading.{word_of, one_of, two_of, read_call};

use shapes::Shape;
use station::Call;

// The call that a line asks for, if it is one's text.
pub fn parse(line: &[u8]) -> Option<Call>
    ensures { result ≡ read_call line.now }
{
    match shapes::read(line)? {
        Shape::Word(letter) => word(letter),
        Shape::One(letter, a) => one(letter, a),
        Shape::Two(letter, a, b) => two(letter, a, b),
    }
}

// A command of one letter.
fn word(letter: u8) -> Option<Call>
    ensures { result ≡ word_of letter }
{
    match letter {
        b't' => Some(Call::OpenTurn),
        b'x' => Some(Call::LostTurn),
        b'b' => Some(Call::Begin),
        b'e' => Some(Call::End),
        _ => None,
    }
}

// A command of a letter and one number.
fn one(letter: u8, a: u64) -> Option<Call>
    ensures { result ≡ one_of letter a }
{
    match letter {
        b'C' => Some(Call::CloseUrgent(a)),
        b'c' => Some(Call::CloseFair(a)),
        _ => None,
    }
}

// A command of a letter and two numbers.
fn two(letter: u8, a: u64, b: u64) -> Option<Call>
    ensures { result ≡ two_of letter a b }
{
    match letter {
        b'U' => Some(Call::OpenUrgent(a, b)),
        b'F' => Some(Call::OpenFair(a, b)),
        b'u' => Some(Call::OfferCell(a, b)),
        b'f' => Some(Call::OfferPacket(a, b)),
        _ => None,
    }
}
