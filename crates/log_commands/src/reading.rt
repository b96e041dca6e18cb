// Reading the command line.
ghost use Rattle.std.specs.Prelude.{◌≡◌};
ghost use Rattle.log_commands.specs.Reading.{starts_with, is_word, command_of};

use crate::Command;

// What a line asks of the log program: a word alone, or a word, a blank and a number with which the line ends.
#[tactic(auto, using(crate::proofs::Ways::number_before))]
pub fn parse(line: &[u8]) -> Option<Command>
    ensures { result ≡ command_of line.now }
{
    if is_word(line, b"check") {
        return Some(Command::Check);
    }
    if is_word(line, b"show") {
        return Some(Command::Show);
    }
    if is_word(line, b"write") {
        return Some(Command::Write);
    }
    let (n, end) = text::number(line, 5)?;
    if end < line.len() {
        return None;
    }
    if starts_with(line, b"diff ") {
        return Some(Command::Diff(n as usize));
    }
    if starts_with(line, b"tail ") {
        return Some(Command::Tail(n as usize));
    }
    None
}

// Whether a line is a word.
fn is_word(line: &[u8], word: &[u8]) -> bool
    ensures { result ≡ is_word line.now word.now }
{
    line.len() == word.len() && starts_with(line, word)
}

// Whether a word stands at a line's start.
#[tactic(auto, using(crate::proofs::Words::library_starts))]
fn starts_with(line: &[u8], word: &[u8]) -> bool
    ensures { result ≡ starts_with line.now word.now }
{
    line.starts_with(word)
}
