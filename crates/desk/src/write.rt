// What is written to the desk: a fresh desk, the last ticket, the masks and a card.
ghost use Rattle.std.specs.Prelude.{◌≡◌, ◌+◌, ◌*◌, ◌<◌, length, replicate};
ghost use Rattle.rules.specs.Masks.{fresh};
ghost use Rattle.rules.specs.Memory.{masks_bytes, card_bytes};
ghost use Rattle.layout.specs.Puts.{put, put32};
ghost use Rattle.masks.specs.Held.{held};

use crate::start;
use layout::Word;
use masks::Masks;
use rules::{Card, Counts, Desk, Position, Ticket};

// A fresh desk of N, T and R.
pub fn put_fresh(desk: &mut Desk, counts: Counts)
    ensures { desk.new ≡ put (put32 (put32 (put32 (replicate (length desk.old) 0) 0 counts.n) 4 counts.t) 8 counts.r) 16 (masks_bytes fresh) }
{
    desk.fill(0);
    put_counts(desk, counts);
    put_masks(desk, Masks::fresh());
}

fn put_counts(desk: &mut Desk, counts: Counts)
    ensures { desk.new ≡ put32 (put32 (put32 desk.old 0 counts.n) 4 counts.t) 8 counts.r }
{
    counts.n.put_at(desk, 0);
    counts.t.put_at(desk, 4);
    counts.r.put_at(desk, 8);
}

pub fn put_last_ticket(desk: &mut Desk, ticket: Ticket)
    ensures { desk.new ≡ put32 desk.old 12 ticket.0 }
{
    u32::from(ticket).put_at(desk, 12);
}

// The masks and the card of position p.
pub fn put_scan(desk: &mut Desk, p: Position, m: Masks, c: Card)
    ensures { (p < 64) × (desk.new ≡ put (put desk.old 16 (masks_bytes (held m))) (64 + p * 16) (card_bytes c)) }
{
    put_masks(desk, m);
    put_card(desk, p, c);
}

fn put_masks(desk: &mut Desk, m: Masks)
    ensures { desk.new ≡ put desk.old 16 (masks_bytes (held m)) }
{
    m.stable.put_at(desk, 16);
    m.active.put_at(desk, 24);
    m.local.put_at(desk, 32);
}

fn put_card(desk: &mut Desk, p: Position, c: Card)
    ensures { (p < 64) × (desk.new ≡ put desk.old (64 + p * 16) (card_bytes c)) }
{
    let at = start(p);
    u32::from(c.ticket).put_at(desk, at);
    c.place.put_at(desk, at + 4);
    c.handed.put_at(desk, at + 8);
    c.rest.put_at(desk, at + 12);
}
