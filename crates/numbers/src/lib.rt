// What depends on numbers alone: tests of what was read from lent bytes, and of lengths.
#![tactic(auto)]

pub mod card;
pub mod head;
pub mod lengths;
