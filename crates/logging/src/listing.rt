// The openings of a lane, listed for the writer.
ghost use Rattle.std.specs.Prelude.{◌≡◌, ◌≤◌, ◌<◌};
ghost use Rattle.logging.specs.Listing.{openings_of, with_opening};

use crate::Openings;

// The openings of a lane whose flows were opened with these numbers, 0 for none.
pub fn listed(numbers: [u16; 16]) -> Openings
    ensures { result ≡ openings_of numbers }
{
    let mut openings = Openings {
        words: [0; 16],
        count: 0,
    };
    for (flow, number) in numbers.iter().enumerate() {
        openings.add(flow, *number);
    }
    openings
}

impl Openings {
    // One flow more, listed if it was opened.
    fn add(&mut self, flow: usize, number: u16)
        requires { (self.old.count ≤ flow) × (flow < 16) }
        ensures { self.new ≡ with_opening self.old flow number }
    {
        if number == 0 {
            return;
        }
        self.words[self.count] = flow as u32 + 256 * u32::from(number);
        self.count += 1;
    }
}
