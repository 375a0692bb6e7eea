// The rules of a card with a scan on it.
ghost use Rattle.std.specs.Prelude.{◌≡◌, ◌+◌, ◌<◌, ltb};
ghost use Rattle.rules.specs.Sound.{same, last_word_ok};
ghost use Rattle.numbers.specs.Busy.{busy_holds};

use rules::{Card, Ticket};

// What a desk holds its cards to: the last ticket given, T and R, whose sum is a number of 32 bits.
#[derive(Clone, Copy, Debug, PartialEq, Eq)]
pub struct Limits {
    pub last: Ticket,
    pub slots: usize,
    pub entries: usize,
    pub ghost countable: { slots + entries < 4294967296 },
}

// The place is below T exactly where `low`.
fn side_sound(place: usize, slots: usize, low: bool) -> bool
    ensures { result ≡ same (ltb place slots) low }
{
    (place < slots) == low
}

// What the last four bytes may be.
fn last_word_sound(word: u32) -> bool
    ensures { result ≡ last_word_ok word }
{
    word == 0
}

// The card keeps its rules; `low` where its local active bit is 0.
#[tactic(auto, unfolding(crate::specs::Busy::busy_holds))]
pub fn busy_sound(c: Card, low: bool, limits: Limits) -> bool
    ensures { result ≡ busy_holds c low limits.last.0 limits.slots limits.entries }
{
    let ticket = c.ticket;
    let place = c.place as usize;
    let side = side_sound(place, limits.slots, low);
    (ticket != Ticket::NONE)
        & ((ticket <= limits.last)
            & ((place <= limits.slots + limits.entries)
                & (side & ((c.handed <= c.place) & last_word_sound(c.rest)))))
}
