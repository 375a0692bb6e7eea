// The scan of a ticket on a sound desk.
#![tactic(auto)]

ghost use Rattle.std.specs.Prelude.{[]};
ghost use Rattle.rules.specs.Memory.{store_of};
ghost use Rattle.positions.specs.Found.{Finds};
ghost use Rattle.running.specs.Scan.{ReadyDesk, scan_of};

use rules::{Desk, Position, Ticket};

pub mod store;

// The position of the scan of a ticket; none where the ticket is 0 or on no card.
pub fn scan_of(desk: &Desk, ticket: Ticket) -> Option<Position>
    requires { ReadyDesk desk.now }
    ensures { Finds result (scan_of (store_of desk.now [] []) ticket.0) 64 }
{
    if ticket == Ticket::NONE {
        return None;
    }
    positions::position_of(desk, ticket)
}
