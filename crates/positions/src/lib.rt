// Positions looked up on the desk: the one of a ticket, and the lowest that is free.
#![tactic(auto)]

ghost use Rattle.std.specs.Prelude.{◌≡◌, ◌≤◌, ◌<◌, []};
ghost use Rattle.rules.specs.Bytes.{u32_at};
ghost use Rattle.rules.specs.Memory.{store_of};
ghost use Rattle.rules.specs.Calls.{position_of, free_position};
ghost use Rattle.desk.specs.Tickets.{Unscanned, NoneFrom};
ghost use Rattle.positions.specs.Found.{Finds};

use masks::Masks;
use rules::{Desk, Position, Ticket};

// The lowest position whose card bears the ticket. Looks below N only, and nowhere if no scan runs.
#[tactic(auto, using(crate::proofs::Position::unscanned))]
pub fn position_of(desk: &Desk, ticket: Ticket) -> Option<Position>
    requires { (u32_at desk.now 0 ≤ 64) × NoneFrom desk.now ticket.0 (u32_at desk.now 0) × (Unscanned desk.now → NoneFrom desk.now ticket.0 0) }
    ensures { Finds result (position_of (store_of desk.now [] []) ticket.0) 64 }
{
    if desk::masks_at(desk).active == Masks::ALL_ONES {
        return None;
    }
    let n = desk::counts(desk).n as usize;
    let position = |i: usize|
        requires { i < 64 }
    { Position(i as u32) };
    let bears = |i: usize| desk::ticket_at(desk, position(i)) == ticket;
    fours::lowest(0, n, bears).map(position)
}

// The lowest position below N with active bit 1.
#[tactic(auto, using(crate::proofs::Position::free_here))]
pub fn free_position(desk: &Desk) -> Option<Position>
    requires { u32_at desk.now 0 ≤ 64 }
    ensures { Finds result (free_position (store_of desk.now [] [])) (u32_at desk.now 0) }
{
    let active = desk::masks_at(desk).active;
    for p in 0..desk::counts(desk).n {
        if masks::has_bit(active, Position(p)) {
            return Some(Position(p));
        }
    }
    None
}
