// The looks of a scan: one loop over slots.
ghost use Rattle.std.specs.Prelude.{◌≡◌, ◌+◌, ◌-◌, ◌/◌, ◌≤◌, ◌<◌, min, length};
ghost use Rattle.rules.specs.Memory.{slots_of};
ghost use Rattle.looks.specs.Walked.{waits_in, walked_of, sought_of};

use masks::Awaiting;
use rules::{Position, SlotNumber};

// How a walk ended: a record in hand, the budget of looks spent, or at the end.
#[derive(Clone, Copy, Debug, PartialEq, Eq)]
pub enum Seen {
    Record,
    Spent,
    End,
}

// A walk's answer. Looks made and budget left come with each of its ends: document 01's form of what next gives.
#[derive(Clone, Copy, Debug, PartialEq, Eq)]
pub struct Walked {
    pub seen: Seen,
    pub looks: u32,
    pub left: u32,
}

// Looks from slot `from` on until a version that the scan awaits, the budget spent or the last slot.
#[tactic(auto, using(crate::proofs::Walked::one_on, crate::proofs::Walked::unawaited, crate::proofs::Walked::waits_here, crate::proofs::Walked::walked_hit, crate::proofs::Walked::walked_spent))]
pub fn walk(slots: &[u8], from: SlotNumber, budget: u32, scan: Awaiting) -> Walked
    requires { (from.0 ≤ length slots.now / 64) × (length slots.now / 64 < 4294967296) }
    ensures { result ≡ walked_of (waits_in scan.flip scan.position (slots_of slots.now)) from.0 budget (length slots.now / 64) }
{
    let end = slots::slot_count(slots);
    let start = usize::from(from);
    let stop = (start + budget as usize).min(end);
    let mut i = start;
    // Document 01's form: one loop over slots that yields its answer by break. The next look is where a run of empty blocks ends.
    loop {
        if i >= stop {
            if stop < end {
                break Walked {
                    seen: Seen::Spent,
                    looks: budget,
                    left: 0,
                };
            }
            let looks = (end - start) as u32;
            break Walked {
                seen: Seen::End,
                looks: looks,
                left: budget - looks,
            };
        }
        let here = SlotNumber(i);
        i += 1;
        if !slots::in_use(slots, here) {
            i = usize::from(search::past_empty(slots, SlotNumber(i), SlotNumber(stop)));
            continue;
        }
        if !scan.awaits(slots::mask_at(slots, here)) {
            continue;
        }
        let looks = (i - start) as u32;
        break Walked {
            seen: Seen::Record,
            looks: looks,
            left: budget - looks,
        };
    }
}

// The whole walk, table first, then shelf: place T + k is shelf entry k.
#[tactic(auto, using(crate::proofs::Seek::seek_stops, crate::proofs::Seek::seek_end, crate::proofs::Seek::seek_shelf))]
pub fn seek(
    stable: u64,
    table: &[u8],
    shelf: &[u8],
    p: Position,
    place: usize,
    budget: u32,
) -> Walked
    requires { (place ≤ length table.now / 64 + length shelf.now / 64) × (length table.now / 64 + length shelf.now / 64 < 4294967296) }
    ensures { result ≡ sought_of stable p table.now shelf.now place budget }
{
    let slots = slots::slot_count(table);
    let on_shelf = Awaiting::on_shelf(p);
    if place >= slots {
        return walk(shelf, SlotNumber(place - slots), budget, on_shelf);
    }
    let there = walk(
        table,
        SlotNumber(place),
        budget,
        Awaiting::in_table(stable, p),
    );
    match there.seen {
        Seen::Record | Seen::Spent => there,
        Seen::End => {
            let then = walk(shelf, SlotNumber(0), there.left, on_shelf);
            Walked {
                looks: there.looks + then.looks,
                ..then
            }
        }
    }
}
