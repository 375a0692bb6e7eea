// Each answer as one number: answer + 256 × value.
#![tactic(auto, unfolding(rules::specs::Answers::packed, rules::specs::Answers::number, rules::specs::Answers::value, rules::specs::Answers::draw_of, rules::specs::Answers::says))]

ghost use Rattle.std.specs.Prelude.{◌≡◌};
ghost use Rattle.rules.specs.Answers.{Answer, packed, says, change_tells, begin_tells, next_tells, tally_tells, owed_tells};

use rules::{Draw, Owed, Refusal, Tally, Ticket};

// What a call gives that is not refused.
pub trait Value {
    ghost tells: { Self → Answer };

    // The number that tells it.
    fn number(self) -> u64
        ensures { result ≡ packed (tells self) };
}

impl Value for () {
    ghost tells = { change_tells };

    fn number(self) -> u64 {
        0
    }
}

impl Value for Ticket {
    ghost tells = { begin_tells };

    fn number(self) -> u64 {
        256 * u64::from(u32::from(self))
    }
}

impl Value for Draw {
    ghost tells = { next_tells };

    fn number(self) -> u64 {
        match self {
            Draw::InHand { looks, left: _ } => 256 * u64::from(looks),
            Draw::Paused { looks } => 100 + 256 * u64::from(looks),
            Draw::Finished {
                looks,
                left: _,
                handed,
            } => 101 + 256 * (u64::from(looks) + 2097152 * u64::from(handed)),
        }
    }
}

impl Value for Tally {
    ghost tells = { tally_tells };

    fn number(self) -> u64 {
        256 * (u64::from(self.records) + 32768 * u64::from(self.entries))
    }
}

impl Value for Owed {
    ghost tells = { owed_tells };

    fn number(self) -> u64 {
        256 * u64::from(self.0)
    }
}

// What a call answers, refused or not.
pub fn number<V: Value>(answer: Result<V, Refusal>) -> u64
    ensures { result ≡ packed (says V.tells answer) }
{
    match answer {
        Ok(value) => value.number(),
        Err(refusal) => u64::from(u8::from(refusal)),
    }
}
