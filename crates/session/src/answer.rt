// What a call answers, in words: the answer's number, then its values.
use rules::{Draw, Owed, Refusal, Tally, Ticket};
use std::fmt;
use std::fmt::Display;

#[derive(Clone, Copy, Debug, PartialEq, Eq)]
pub struct Answer<T>(pub Result<T, Refusal>);

impl<T: Told> Display for Answer<T> {
    fn fmt<W: fmt::Write>(&self, f: &mut fmt::Formatter<W>) -> fmt::Result {
        match &self.0 {
            Ok(value) => value.tell(f),
            Err(refusal) => write!(f, "{}", u8::from(*refusal)),
        }
    }
}

// What a call gives that is not refused.
pub trait Told {
    fn tell<W: fmt::Write>(&self, f: &mut fmt::Formatter<W>) -> fmt::Result;
}

impl Told for () {
    fn tell<W: fmt::Write>(&self, f: &mut fmt::Formatter<W>) -> fmt::Result {
        write!(f, "0")
    }
}

impl Told for Ticket {
    fn tell<W: fmt::Write>(&self, f: &mut fmt::Formatter<W>) -> fmt::Result {
        write!(f, "0, ticket {}", u32::from(*self))
    }
}

impl Told for Draw {
    fn tell<W: fmt::Write>(&self, f: &mut fmt::Formatter<W>) -> fmt::Result {
        match self {
            Draw::InHand { looks, left } => write!(f, "0, looks {looks}, left {left}"),
            Draw::Paused { looks } => write!(f, "100, looks {looks}"),
            Draw::Finished {
                looks,
                left,
                handed,
            } => write!(f, "101, looks {looks}, left {left}, handed {handed}"),
        }
    }
}

impl Told for Tally {
    fn tell<W: fmt::Write>(&self, f: &mut fmt::Formatter<W>) -> fmt::Result {
        write!(f, "0, records {}, entries {}", self.records, self.entries)
    }
}

impl Told for Owed {
    fn tell<W: fmt::Write>(&self, f: &mut fmt::Formatter<W>) -> fmt::Result {
        write!(f, "0, owing {}", self.0)
    }
}
