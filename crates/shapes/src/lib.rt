// The shape of a line: a letter, and up to two numbers with one blank before each.
#![tactic(auto)]

ghost use Rattle.std.specs.Prelude.{◌≡◌};
ghost use Rattle.shapes.specs.Shapes.{shape_of};

// A letter alone, a letter and one number, or a letter and two.
#[derive(Clone, Copy, Debug, PartialEq, Eq)]
pub enum Shape {
    Word(u8),
    One(u8, u64),
    Two(u8, u64, u64),
}

// The shape of a line, if it has one.
pub fn read(line: &[u8]) -> Option<Shape>
    ensures { result ≡ shape_of line.now }
{
    let letter = *line.first()?;
    if line.len() == 1 {
        return Some(Shape::Word(letter));
    }
    if line[1] != b' ' {
        return None;
    }
    let (a, p) = text::number(line, 2)?;
    if p == line.len() {
        return Some(Shape::One(letter, a));
    }
    let (b, q) = text::number(line, p + 1)?;
    (q == line.len()).then_some(Shape::Two(letter, a, b))
}
