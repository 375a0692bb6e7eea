// What was seen over all sequences.
use std::fmt;

// Peek beside next with unbounded budget.
#[derive(Clone, Copy, Debug, PartialEq, Eq)]
pub enum Compared {
    InHand,
    Empty,
    Different,
}

#[derive(Clone, Copy, Debug, Default, PartialEq, Eq)]
pub struct Seen {
    calls: u32,
    in_hand: u32,
    empty: u32,
    differences: u32,
}

impl Seen {
    pub fn called(&mut self) {
        self.calls = self.calls.wrapping_add(1);
    }

    pub fn compared(&mut self, compared: Compared) {
        match compared {
            Compared::InHand => self.in_hand = self.in_hand.wrapping_add(1),
            Compared::Empty => self.empty = self.empty.wrapping_add(1),
            Compared::Different => self.differences = self.differences.wrapping_add(1),
        }
    }
}

impl fmt::Display for Seen {
    fn fmt<W: fmt::Write>(&self, f: &mut fmt::Formatter<W>) -> fmt::Result {
        write!(
            f,
            "{} calls, {} differences\n{} peeks in hand, {} empty",
            self.calls, self.differences, self.in_hand, self.empty
        )
    }
}
