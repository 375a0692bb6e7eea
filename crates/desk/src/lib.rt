// What the desk says: N, T and R, the last ticket, its masks and its cards.
#![tactic(auto)]

ghost use Rattle.std.specs.Prelude.{◌≡◌, ◌+◌, ◌*◌, ◌<◌};
ghost use Rattle.rules.specs.Bytes.{u32_at};
ghost use Rattle.rules.specs.Memory.{card_at, masks_of};
ghost use Rattle.masks.specs.Held.{held};
ghost use Rattle.desk.specs.Tickets.{ticket_at};

use layout::Word;
use masks::Masks;
use rules::{Card, Counts, Desk, Position, Ticket};

pub mod write;

// Where the card of position p starts.
fn start(p: Position) -> usize
    ensures { (result ≡ 64 + p * 16) × (p < 64) }
{
    64 + u32::from(p) as usize * 16
}

pub fn card_at(desk: &Desk, p: Position) -> Card
    ensures { result ≡ card_at desk.now p }
{
    let at = start(p);
    Card {
        ticket: Ticket(u32::at(desk, at)),
        place: u32::at(desk, at + 4),
        handed: u32::at(desk, at + 8),
        rest: u32::at(desk, at + 12),
    }
}

// The ticket on the card of position p.
pub fn ticket_at(desk: &Desk, p: Position) -> Ticket
    ensures { result.0 ≡ ticket_at desk.now p }
{
    Ticket(u32::at(desk, start(p)))
}

pub fn masks_at(desk: &Desk) -> Masks
    ensures { held result ≡ masks_of desk.now }
{
    Masks {
        stable: u64::at(desk, 16),
        active: u64::at(desk, 24),
        local: u64::at(desk, 32),
    }
}

// How many scans there can be at a time, and how many slots and entries the desk says that table and shelf have.
pub fn counts(desk: &Desk) -> Counts
    ensures n { result.n ≡ u32_at desk.now 0 }
    ensures t { result.t ≡ u32_at desk.now 4 }
    ensures r { result.r ≡ u32_at desk.now 8 }
{
    Counts {
        n: u32::at(desk, 0),
        t: u32::at(desk, 4),
        r: u32::at(desk, 8),
    }
}

pub fn last_ticket(desk: &Desk) -> Ticket
    ensures { result.0 ≡ u32_at desk.now 12 }
{
    Ticket(u32::at(desk, 12))
}
