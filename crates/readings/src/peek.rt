// Peek: where the version stands that next would hand out, and the part of that buffer.
ghost use Rattle.std.specs.Prelude.{◌≡◌};
ghost use Rattle.rules.specs.Answers.{Answer, Shown};
ghost use Rattle.rules.specs.Memory.{store_of};
ghost use Rattle.rules.specs.Promises.{Tells, NoCopy, kept};
ghost use Rattle.rules.specs.Refusals.{Call, Reading};
ghost use Rattle.running.specs.Scan.{Runs};
ghost use Rattle.readings.specs.Found.{found_at};

use looks::walk::Seen;
use rules::{Position, SlotNumber, Ticket};
use running::store::Store;

// The slot or the entry of the version that next with unbounded budget would hand out.
#[derive(Clone, Copy, Debug, PartialEq, Eq)]
pub enum Found {
    InTable(SlotNumber),
    OnShelf(SlotNumber),
}

// What the scan at p would be handed, if anything.
#[tactic(auto, using(running::proofs::Scan::scan_fits, running::proofs::Sought::record_some, crate::proofs::Peeks::found_table, crate::proofs::Peeks::found_shelf, crate::proofs::Peeks::found_nothing))]
fn found_at(store: &Store, p: Position) -> Option<Found>
    requires { Runs store.now.desk.now p }
    ensures { result ≡ found_at (store_of store.now.desk.now store.now.table.now store.now.shelf.now) p }
{
    let slots = slots::slot_count(store.table);
    let all = slots + slots::slot_count(store.shelf);
    let place = desk::card_at(store.desk, p).place as usize;
    let stable = desk::masks_at(store.desk).stable;
    let walked = looks::walk::seek(stable, store.table, store.shelf, p, place, all as u32);
    let looks = walked.looks as usize;
    match walked.seen {
        Seen::Record => {
            let at = place + looks - 1;
            if at < slots {
                return Some(Found::InTable(SlotNumber(at)));
            }
            Some(Found::OnShelf(SlotNumber(at - slots)))
        }
        Seen::Spent | Seen::End => None,
    }
}

// The 56 bytes of number and body as a part of table or shelf and no copy; an empty part, document 01's word for none, where next
// would hand out nothing.
#[tactic(auto, using(running::proofs::Scan::scan_runs, crate::proofs::Peeks::below_table, crate::proofs::Peeks::below_shelf, crate::proofs::Peeks::peeks_none, crate::proofs::Peeks::peeks_nothing))]
pub fn peek<'s>(store: &Store<'_, 's>, ticket: Ticket) -> &'s [u8]
    ensures { Tells (Answer.shown (Shown.part result.now)) (kept store.now.desk.now)
        (kept store.now.table.now) (kept store.now.shelf.now) (Call.reading (Reading.peek ticket.0))
        × NoCopy result store.now.desk store.now.table store.now.shelf ticket.0 }
{
    let Some(p) = running::scan_of(store.desk, ticket) else {
        return &store.table[..0];
    };
    match found_at(store, p) {
        Some(Found::InTable(i)) => slots::version(store.table, i),
        Some(Found::OnShelf(e)) => slots::version(store.shelf, e),
        None => &store.table[..0],
    }
}
