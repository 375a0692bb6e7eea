// Begin, on a sound desk: a ticket is given, and its scan takes a position.
#![tactic(auto)]

ghost use Rattle.std.specs.Prelude.{◌≡◌, ◌+◌, ◌*◌, ◌≤◌, ◌<◌};
ghost use Rattle.rules.specs.Answers.{begin_says};
ghost use Rattle.rules.specs.Bytes.{u32_at};
ghost use Rattle.rules.specs.Promises.{TellsOverAnySlots, rewritten};
ghost use Rattle.rules.specs.Masks.{walk_begun as begun_masks};
ghost use Rattle.rules.specs.Memory.{card, masks_bytes, card_bytes};
ghost use Rattle.rules.specs.Refusals.{Call};
ghost use Rattle.layout.specs.Puts.{put, put32};
ghost use Rattle.masks.specs.Held.{held};

use masks::Masks;
use rules::{BeginAnswer, Card, Desk, Position, Refusal, Ticket};

// A ticket is given: the last one + 1.
fn give_ticket(desk: &mut Desk, last: Ticket) -> Ticket
    requires { last.0 < 4294967295 }
    ensures { (result.0 ≡ last.0 + 1) × (desk.new ≡ put32 desk.old 12 (last.0 + 1)) }
{
    let ticket = last.next();
    desk::write::put_last_ticket(desk, ticket);
    ticket
}

// The scan of a ticket takes position p, at place 0.
fn seat(desk: &mut Desk, ticket: Ticket, p: Position, m: Masks)
    ensures { desk.new ≡ put (put desk.old 16 (masks_bytes (begun_masks (held m) p))) (64 + p * 16) (card_bytes (card ticket.0 0 0 0)) }
{
    desk::write::put_scan(
        desk,
        p,
        m.begun(p),
        Card {
            ticket,
            ..Card::default()
        },
    );
}

#[tactic(auto, using(crate::proofs::Begins::begins_full, crate::proofs::Begins::begins_last), unfolding(rules::specs::Answers::says, rules::specs::Answers::number_of))]
pub fn begin(desk: &mut Desk) -> BeginAnswer
    requires { u32_at desk.old 0 ≤ 64 }
    ensures { TellsOverAnySlots (begin_says result) (rewritten desk.old desk.new) Call.begin }
{
    let free = positions::free_position(desk);
    let p = free.ok_or(Refusal::NoPosition)?;
    let last = desk::last_ticket(desk);
    if last == Ticket::LAST {
        return Err(Refusal::NoTicket);
    }
    let m = desk::masks_at(desk);
    let ticket = give_ticket(desk, last);
    seat(desk, ticket, p, m);
    Ok(ticket)
}
