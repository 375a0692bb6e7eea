// Search over the slots of a table or the entries of a shelf, four at a time.
#![tactic(auto)]

ghost use Rattle.std.specs.Prelude.{◌≡◌, ◌-◌, ◌/◌, ◌≤◌, ◌<◌, length};
ghost use Rattle.rules.specs.Calls.{first};
ghost use Rattle.rules.specs.Memory.{slots_of};
ghost use Rattle.joins.specs.Search.{bears, bears_or_empty};
ghost use Rattle.search.specs.Passed.{bears_either, used_at, Passed, Finds};

use rules::{RecordNumber, SlotNumber};

// Slot i bears one of two numbers.
fn bears_either(slots: &[u8], i: usize, k: RecordNumber, l: RecordNumber) -> bool
    requires { i < length slots.now / 64 }
    ensures { result ≡ bears_either (slots_of slots.now) k.0 l.0 i }
{
    let number = slots::number_at(slots, SlotNumber(i));
    (number == k) | (number == l)
}

// The lowest slot from `from` on that bears one of two numbers.
fn lowest(slots: &[u8], k: RecordNumber, l: RecordNumber, from: SlotNumber) -> Option<SlotNumber>
    requires { from.0 ≤ length slots.now / 64 }
    ensures { Finds result (first (bears_either (slots_of slots.now) k.0 l.0) from.0 (length slots.now / 64 - from.0)) (length slots.now / 64) }
{
    let bears = |i| bears_either(slots, i, k, l);
    fours::lowest(usize::from(from), slots::slot_count(slots), bears).map(SlotNumber)
}

// The lowest slot from `from` on that bears the number.
pub fn bearing(slots: &[u8], k: RecordNumber, from: SlotNumber) -> Option<SlotNumber>
    requires { from.0 ≤ length slots.now / 64 }
    ensures { Finds result (first (bears (slots_of slots.now) k.0) from.0 (length slots.now / 64 - from.0)) (length slots.now / 64) }
{
    lowest(slots, k, k, from)
}

// The lowest empty slot.
pub fn empty(slots: &[u8]) -> Option<SlotNumber>
    ensures { Finds result (first (bears (slots_of slots.now) 0) 0 (length slots.now / 64 - 0)) (length slots.now / 64) }
{
    bearing(slots, RecordNumber::NONE, SlotNumber(0))
}

// The lowest slot that bears the number or is empty.
pub fn bearing_or_empty(slots: &[u8], k: RecordNumber) -> Option<SlotNumber>
    ensures { Finds result (first (bears_or_empty (slots_of slots.now) k.0) 0 (length slots.now / 64)) (length slots.now / 64) }
{
    lowest(slots, k, RecordNumber::NONE, SlotNumber(0))
}

// Past the blocks of four empty slots from `from` on, up to `stop`.
pub fn past_empty(slots: &[u8], from: SlotNumber, stop: SlotNumber) -> SlotNumber
    requires { (from.0 ≤ stop.0) × (stop.0 ≤ length slots.now / 64) }
    ensures { Passed (used_at (slots_of slots.now)) from.0 stop.0 result.0 }
{
    let used = |i| slots::in_use(slots, SlotNumber(i));
    SlotNumber(fours::past(usize::from(from), usize::from(stop), used))
}
