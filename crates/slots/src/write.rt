// What is written to a slot of the table or an entry of the shelf.
ghost use Rattle.std.specs.Prelude.{◌≡◌, ◌+◌, ◌*◌, ◌/◌, ◌<◌, length, replicate};
ghost use Rattle.rules.specs.Bytes.{field};
ghost use Rattle.layout.specs.Puts.{put, put32, put64};

use crate::start;
use layout::Word;
use rules::{Body, RecordNumber, SlotNumber, Version};

pub fn put_mask(slots: &mut [u8], i: SlotNumber, mask: u64)
    requires { i.0 < length slots.old / 64 }
    ensures { slots.new ≡ put64 slots.old (i.0 * 64 + 56) mask }
{
    mask.put_at(slots, start(i) + 56);
}

pub fn put_body(slots: &mut [u8], i: SlotNumber, body: &Body)
    requires { i.0 < length slots.old / 64 }
    ensures { slots.new ≡ put slots.old (i.0 * 64 + 4) body.now }
{
    layout::copy::<52>(slots, start(i) + 4, body, 0);
}

pub fn put_record(slots: &mut [u8], i: SlotNumber, k: RecordNumber, body: &Body, mask: u64)
    requires { i.0 < length slots.old / 64 }
    ensures { slots.new ≡ put64 (put (put32 slots.old (i.0 * 64) k.0) (i.0 * 64 + 4) body.now) (i.0 * 64 + 56) mask }
{
    u32::from(k).put_at(slots, start(i));
    put_body(slots, i, body);
    put_mask(slots, i, mask);
}

// The version in slot i of the table goes to entry e of the shelf, with this mask.
pub fn shelve(table: &[u8], i: SlotNumber, shelf: &mut [u8], e: SlotNumber, mask: u64)
    requires { (i.0 < length table.now / 64) × (e.0 < length shelf.old / 64) }
    ensures { shelf.new ≡ put64 (put shelf.old (e.0 * 64) (field 56 (i.0 * 64) table.now)) (e.0 * 64 + 56) mask }
{
    layout::copy::<56>(shelf, start(e), table, start(i));
    put_mask(shelf, e, mask);
}

// Number and body are handed out.
pub fn hand_out(slots: &[u8], i: SlotNumber, out: &mut Version)
    requires { i.0 < length slots.now / 64 }
    ensures { out.new ≡ put out.old 0 (field 56 (i.0 * 64) slots.now) }
{
    layout::copy::<56>(out, 0, slots, start(i));
}

// The slot becomes 64 zero bytes.
pub fn free(slots: &mut [u8], i: SlotNumber)
    requires { i.0 < length slots.old / 64 }
    ensures { slots.new ≡ put slots.old (i.0 * 64) (replicate 64 0) }
{
    layout::clear_slot(slots, start(i));
}
