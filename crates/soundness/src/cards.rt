// The rules of the cards, eight at a time where all eight are idle, by whole words, or all busy.
ghost use Rattle.std.specs.Prelude.{◌≡◌, ◌+◌, ◌/◌, ◌%◌, ◌^◌, ◌≤◌, ◌<◌};
ghost use Rattle.soundness.specs.Cards.{cards_hold, IdleLocal};

use crate::words;
use masks::Masks;
use numbers::card::Limits;
use rules::{Desk, Position};

// The cards of a desk, and what they are held to. Nothing compares or prints them.
#[derive(Clone, Copy)]
struct Cards<'a> {
    desk: &'a Desk,
    masks: Masks,
    limits: Limits,
    ghost idle_local: { IdleLocal masks },
}

impl<'a> Cards<'a> {
    ghost use Rattle.soundness.specs.Every.{every};
    ghost use Rattle.soundness.specs.Holds.{holds};

    // The card of position p.
    #[tactic(auto, using(crate::proofs::CardCases::idle_case, crate::proofs::CardCases::busy_case))]
    fn card_sound(&self, p: Position) -> bool
        ensures { result ≡ holds self.now p }
    {
        if masks::has_bit(self.masks.active, p) {
            let word = 8 + u32::from(p) as usize * 2;
            return words::zero_words(self.desk, word, word + 2);
        }
        let desk = self.desk;
        let card = desk::card_at(desk, p);
        numbers::card::busy_sound(card, !masks::has_bit(self.masks.local, p), self.limits)
    }

    // The cards of the eight positions from p on, each with a scan.
    #[tactic(auto, using(crate::proofs::CardCases::busy_turn, crate::proofs::Every::every_none))]
    fn eight_busy_sound(&self, p: u32) -> bool
        requires { (p + 8 ≤ 64) × (self.now.masks.active / 2 ^ p % 256 ≡ 0) }
        ensures { result ≡ every (holds self.now) p 8 }
    {
        let desk = self.desk;
        let local = (self.masks.local >> p) % 256;
        let mut sound = true;
        for i in 0..8 {
            let card = desk::card_at(desk, Position(p + i));
            let low = !masks::has_bit(local, Position(i));
            sound &= numbers::card::busy_sound(card, low, self.limits);
        }
        sound
    }

    // The cards of the eight positions from p on.
    #[tactic(auto, using(crate::proofs::CardCases::eight_case, crate::proofs::Every::every_none, crate::proofs::Every::every_step))]
    fn eight_sound(&self, p: u32) -> bool
        requires { p + 8 ≤ 64 }
        ensures { result ≡ every (holds self.now) p 8 }
    {
        if (self.masks.active >> p) % 256 == 255 {
            let word = 8 + (p as usize) * 2;
            return words::zero_words(self.desk, word, word + 16);
        }
        if (self.masks.active >> p) % 256 == 0 {
            return self.eight_busy_sound(p);
        }
        let mut sound = true;
        for i in p..p + 8 {
            sound &= self.card_sound(Position(i));
        }
        sound
    }

    // The cards of all positions.
    #[tactic(auto, using(crate::proofs::Every::every_none, crate::proofs::Every::every_eight))]
    fn all_sound(&self) -> bool
        ensures { result ≡ every (holds self.now) 0 64 }
    {
        let mut sound = true;
        for p in (0..64).step_by(8) {
            sound &= self.eight_sound(p);
        }
        sound
    }
}

// Every idle position's local active bit is 1, and the cards keep their rules.
#[tactic(auto, using(crate::proofs::DeskCases::desk_cases), unfolding(rules::specs::Masks::NOT))]
pub fn cards_sound(desk: &Desk, slots: usize, entries: usize) -> bool
    requires { slots + entries < 4294967296 }
    ensures { result ≡ cards_hold desk.now slots entries }
{
    let masks = desk::masks_at(desk);
    if masks.active & !masks.local != 0 {
        return false;
    }
    if masks.active == Masks::ALL_ONES {
        return words::zero_words(desk, 8, 136);
    }
    let last = desk::last_ticket(desk);
    let limits = Limits {
        last,
        slots,
        entries,
    };
    let cards = Cards {
        desk,
        masks,
        limits,
    };
    cards.all_sound()
}
