// The shelf before a change: the present version is kept for the scans that await it.
#![tactic(auto)]

ghost use Rattle.std.specs.Prelude.{◌≡◌, ◌/◌, ◌<◌, length};
ghost use Rattle.masks.specs.Held.{held};
ghost use Rattle.shelving.specs.Keeps.{keeps};

use masks::Masks;
use rules::{Refusal, SlotNumber};

// What became of the present version of a slot before it is changed: no running scan awaits it, or it stands on the shelf.
#[derive(Clone, Copy, Debug, PartialEq, Eq)]
pub enum Kept {
    Unawaited,
    Shelved,
}

// The present version of slot i is kept for the scans that await it; refused where it is awaited and no entry is empty.
pub fn keep(masks: Masks, table: &[u8], shelf: &mut [u8], i: SlotNumber) -> Result<Kept, Refusal>
    requires { i.0 < length table.now / 64 }
    ensures { (result, shelf.new) ≡ keeps (held masks) table.now shelf.old i.0 }
{
    let m = masks.m_of(slots::mask_at(table, i));
    if m == Masks::ALL_ONES {
        return Ok(Kept::Unawaited);
    }
    let Some(e) = search::empty(shelf) else {
        return Err(Refusal::ShelfFull);
    };
    slots::write::shelve(table, i, shelf, e, m);
    Ok(Kept::Shelved)
}
