// The line that is not at its end yet, kept byte by byte.
ghost use Rattle.std.specs.Prelude.{◌≡◌, ◌==◌, ◌<◌, ◌≤◌, MatchOption, take};
ghost use Rattle.feeding.specs.Lines.{fresh_line, kept_of, ended_of};

// A line as far as it was fed, in fixed memory: its first 32 bytes, and how many it has, or 33 where it has more.
#[derive(Clone, Copy, Debug, PartialEq, Eq)]
pub struct Line {
    pub kept: [u8; 32],
    pub count: usize,
}

impl Line {
    // A line of which no byte was fed.
    pub fn fresh() -> Line
        ensures { result ≡ fresh_line }
    {
        Line {
            kept: [0; 32],
            count: 0,
        }
    }

    // One byte more of the line: it is kept if it is one of the first 32, and of a longer line only that it is longer.
    pub fn keep(&mut self, b: u8)
        ensures { self.new ≡ kept_of self.old b }
    {
        if self.count < self.kept.len() {
            self.kept[self.count] = b;
            self.count += 1;
        } else {
            self.count = 33;
        }
    }

    // The line is at its end, and the next one begins.
    pub fn end(&mut self)
        ensures { self.new ≡ ended_of self.old }
    {
        self.count = 0;
    }

    // Whether no byte of the line was fed.
    pub fn is_empty(&self) -> bool
        ensures { result ≡ (self.now.count == 0) }
    {
        self.count == 0
    }

    // The bytes of the line, were it at its end; none of a line that has more than 32.
    pub fn whole(&self) -> Option<&[u8]>
        ensures { MatchOption result (32 < self.now.count) (λ line. (self.now.count ≤ 32) × (line.now ≡ take self.now.count self.now.kept)) }
    {
        self.kept.get(..self.count)
    }
}
