// What next writes once its looks are made: masks and card, and the version that it hands out.
#![tactic(auto)]

ghost use Rattle.std.specs.Prelude.{◌≡◌, ◌+◌, ◌-◌, ◌/◌, ◌<◌, length, set};
ghost use Rattle.rules.specs.Calls.{slot_in};
ghost use Rattle.rules.specs.Memory.{slots_of};
ghost use Rattle.rules.specs.Promises.{rewritten, kept};
ghost use Rattle.rules.specs.Next.{turned, flipped, taken};
ghost use Rattle.joins.specs.Walks.{crossed};
ghost use Rattle.masks.specs.Held.{held};
ghost use Rattle.settle.specs.Settled.{CanGoOn, CanHandOut, GoesOn, MovesOn, Finishes, Takes, HandsOut};

use masks::Masks;
use rules::{Card, Desk, Position, SlotNumber, Version};

// A scan as the desk has it: its position, its card, and the masks.
#[derive(Clone, Copy, Debug, PartialEq, Eq)]
pub struct Scan {
    pub position: Position,
    pub card: Card,
    pub masks: Masks,
}

// The masks after the scan at p has moved from one place to another: past the last slot its table walk has ended.
fn turned_masks(m: Masks, p: Position, from: usize, to: usize, slots: usize) -> Masks
    ensures { held result ≡ turned (crossed from slots to) (held m) p }
{
    if (from < slots) & (slots <= to) {
        return m.walk_ended(p);
    }
    m
}

// The record in slot i has been handed out to the scan at p: its status bit is flipped.
#[tactic(auto, using(crate::proofs::HandOut::flipped_put))]
fn mark_in_table(table: &mut [u8], i: SlotNumber, p: Position)
    requires { i.0 < length table.old / 64 }
    ensures { slots_of table.new ≡ set (slots_of table.old) i.0 (flipped (slot_in (slots_of table.old) i.0) p) }
{
    let status = slots::mask_at(table, i);
    slots::write::put_mask(table, i, status ^ masks::scan_mask(p));
}

// The version in entry k has been handed out to the scan at p: its bit is set, and with all bits set the entry is freed.
#[tactic(auto, using(crate::proofs::HandOut::taken_freed, crate::proofs::HandOut::taken_kept))]
fn mark_on_shelf(shelf: &mut [u8], k: SlotNumber, p: Position)
    requires { k.0 < length shelf.old / 64 }
    ensures { slots_of shelf.new ≡ set (slots_of shelf.old) k.0 (taken (slot_in (slots_of shelf.old) k.0) p) }
{
    let mask = masks::scan_mask(p) | slots::mask_at(shelf, k);
    let is_handed = mask == Masks::ALL_ONES;
    if is_handed {
        slots::write::free(shelf, k);
        return;
    }
    slots::write::put_mask(shelf, k, mask);
}

// The scan goes on to a place, with so many more handed out to it: its masks and its card.
#[tactic(auto, using(crate::proofs::Moves::moved_spelt))]
fn go_on(desk: &mut Desk, table: &[u8], scan: Scan, place: u32, more: u32)
    requires { CanGoOn desk.old scan.position scan.card (held scan.masks) place × (scan.card.handed + more < 4294967296) }
    ensures { (scan.position < 64) × GoesOn (rewritten desk.old desk.new) (kept table.now) scan.position place (scan.card.handed + more) }
{
    let p = scan.position;
    let card = scan.card;
    let end = slots::slot_count(table);
    let moved = turned_masks(scan.masks, p, card.place as usize, place as usize, end);
    desk::write::put_scan(
        desk,
        p,
        moved,
        Card {
            place,
            handed: card.handed + more,
            ..card
        },
    );
}

// The scan has made its looks and found nothing: it moves on.
pub fn move_on(desk: &mut Desk, table: &[u8], scan: Scan, looks: u32)
    requires { CanGoOn desk.old scan.position scan.card (held scan.masks) (scan.card.place + looks) }
    ensures { MovesOn (rewritten desk.old desk.new) (kept table.now) scan.position (scan.card.place + looks) scan.card.handed }
{
    go_on(desk, table, scan, scan.card.place + looks, 0);
}

// The scan has made its last look and found nothing: its position is free.
#[tactic(auto, using(crate::proofs::Moves::finished_spelt))]
pub fn finish(desk: &mut Desk, table: &[u8], scan: Scan, looks: u32)
    requires { CanGoOn desk.old scan.position scan.card (held scan.masks) (scan.card.place + looks) }
    ensures { Finishes (rewritten desk.old desk.new) (kept table.now) scan.position (scan.card.place + looks) scan.card.handed }
{
    let p = scan.position;
    let from = scan.card.place as usize;
    let end = slots::slot_count(table);
    let moved = turned_masks(scan.masks, p, from, from + looks as usize, end);
    desk::write::put_scan(desk, p, moved.ended(p), Card::default());
}

// The version at a place, table first, then shelf, is the scan's at p: copied out, and marked in its slot or entry.
#[tactic(auto, using(crate::proofs::Moves::takes))]
fn take(table: &mut [u8], shelf: &mut [u8], at: usize, p: Position, out: &mut Version)
    requires { at < length table.old / 64 + length shelf.old / 64 }
    ensures { Takes (rewritten table.old table.new) (rewritten shelf.old shelf.new) (rewritten out.old out.new) p at }
{
    let end = slots::slot_count(table);
    if at < end {
        slots::write::hand_out(table, SlotNumber(at), out);
        mark_in_table(table, SlotNumber(at), p);
        return;
    }
    slots::write::hand_out(shelf, SlotNumber(at - end), out);
    mark_on_shelf(shelf, SlotNumber(at - end), p);
}

// The last look of the scan found a version: it is handed out.
pub fn hand_out(
    desk: &mut Desk,
    table: &mut [u8],
    shelf: &mut [u8],
    scan: Scan,
    looks: u32,
    out: &mut Version,
)
    requires { CanHandOut desk.old table.old shelf.old scan.position scan.card (held scan.masks) looks }
    ensures { HandsOut (rewritten desk.old desk.new) (rewritten table.old table.new)
        (rewritten shelf.old shelf.new) (rewritten out.old out.new) scan.position (scan.card.place + looks - 1) }
{
    let p = scan.position;
    let place = scan.card.place + looks;
    go_on(desk, table, scan, place, 1);
    take(table, shelf, place as usize - 1, p, out);
}
