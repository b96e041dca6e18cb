// Reading a list: numbers with one blank between, three to a declaration.
ghost use Rattle.std.specs.Prelude.{◌≡◌};
ghost use Rattle.lists.specs.Reading.{fresh_hand, ended_of, takes_of, whole_at};
ghost use Rattle.lists.specs.Steps.{put_of, filled_of, keeping_of};

use crate::Reading;
use link::Declaration;

// What is at hand of a line: whether it has a byte, whether it is no list's text, whether a number is begun and its value so far,
// and how many numbers of its declaration were given before it, with those.
#[derive(Clone, Copy)]
pub struct Hand {
    pub some: bool,
    pub bad: bool,
    pub begun: bool,
    pub value: u64,
    pub given: u64,
    pub burst: u64,
    pub period: u64,
}

impl Hand {
    // Nothing at hand.
    pub(crate) fn fresh() -> Hand
        ensures { result ≡ fresh_hand }
    {
        Hand {
            some: false,
            bad: false,
            begun: false,
            value: 0,
            given: 0,
            burst: 0,
            period: 0,
        }
    }

    // One byte more: it goes on with the number at hand, ends it, or begins one; anything else spoils the line.
    fn takes(self, b: u8) -> Hand
        ensures { result ≡ takes_of self b }
    {
        let taken = Hand { some: true, ..self };
        if self.begun {
            if b == b' ' {
                return self.ended();
            }
            return match text::grow(self.value, b) {
                Some(value) => Hand { value, ..taken },
                None => Hand { bad: true, ..taken },
            };
        }
        if b.is_ascii_digit() {
            return Hand {
                begun: true,
                value: u64::from(b - b'0'),
                ..taken
            };
        }
        Hand { bad: true, ..taken }
    }

    // The number at hand is the next one of its declaration.
    fn ended(self) -> Hand
        ensures { result ≡ ended_of self }
    {
        let between = Hand {
            some: true,
            begun: false,
            ..self
        };
        match self.given {
            0 => Hand {
                given: 1,
                burst: self.value,
                ..between
            },
            1 => Hand {
                given: 2,
                period: self.value,
                ..between
            },
            _ => Hand {
                given: 0,
                ..between
            },
        }
    }

    // Whether a declaration is whole with the number at hand.
    pub(crate) fn whole(self) -> bool
        ensures { result ≡ whole_at self }
    {
        self.begun && !self.bad && self.given == 2
    }
}

impl Reading {
    // One byte more of the line; a blank may make a declaration whole.
    pub(crate) fn keep(&mut self, b: u8)
        ensures { self.new ≡ keeping_of self.old b }
    {
        let hand = self.hand.takes(b);
        if b == b' ' {
            self.fill();
        }
        self.hand = hand;
    }

    // Puts the declaration at hand, where it is whole.
    pub(crate) fn fill(&mut self)
        ensures { self.new ≡ filled_of self.old }
    {
        let hand = self.hand;
        if hand.whole() {
            self.put(Declaration {
                burst: hand.burst,
                period: hand.period,
                deadline: hand.value,
            });
        }
    }

    // One declaration more, where there is a place for it.
    fn put(&mut self, declaration: Declaration)
        ensures { self.new ≡ put_of self.old declaration }
    {
        if self.count < self.items.len() {
            self.items[self.count] = declaration;
            self.count += 1;
        }
    }
}
