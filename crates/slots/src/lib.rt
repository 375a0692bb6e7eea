// The slots of a table or the entries of a shelf: how many there are, and what one of them holds.
// That slot i is there ties a number to a buffer that is written to besides, so that it is a clause and no type: of a slice lent as
// slots of 64 bytes (`as_chunks_mut`) std does not say what it ends as.
#![tactic(auto)]

ghost use Rattle.std.specs.Prelude.{◌≡◌, ◌+◌, ◌*◌, ◌/◌, ◌<◌, length};
ghost use Rattle.rules.specs.Bytes.{field, u32_at, u64_at};
ghost use Rattle.rules.specs.Calls.{in_use};
ghost use Rattle.rules.specs.Memory.{slot_at};

use layout::Word;
use rules::{RecordNumber, SlotNumber};

pub mod write;

// How many there are.
pub fn slot_count(slots: &[u8]) -> usize
    ensures { result ≡ length slots.now / 64 }
{
    slots.len() / 64
}

// Where slot i starts.
fn start(i: SlotNumber) -> usize
    requires { i.0 * 64 < 18446744073709551616 }
    ensures { result ≡ i.0 * 64 }
{
    usize::from(i) * 64
}

pub fn number_at(slots: &[u8], i: SlotNumber) -> RecordNumber
    requires { i.0 < length slots.now / 64 }
    ensures { result.0 ≡ u32_at slots.now (i.0 * 64) }
{
    RecordNumber(u32::at(slots, start(i)))
}

pub fn in_use(slots: &[u8], i: SlotNumber) -> bool
    requires { i.0 < length slots.now / 64 }
    ensures { result ≡ in_use (slot_at slots.now i.0) }
{
    number_at(slots, i) != RecordNumber::NONE
}

// The status mask of a slot, or an entry's remset status mask.
pub fn mask_at(slots: &[u8], i: SlotNumber) -> u64
    requires { i.0 < length slots.now / 64 }
    ensures { result ≡ u64_at slots.now (i.0 * 64 + 56) }
{
    u64::at(slots, start(i) + 56)
}

// The 56 bytes of number and body, as a part of the buffer and no copy.
pub fn version(slots: &[u8], i: SlotNumber) -> &[u8]
    requires { i.0 < length slots.now / 64 }
    ensures { (result.now ≡ field 56 (i.0 * 64) slots.now) × (result.ref_ptr ≡ (slots.entry.ref_ptr.0, i.0 * 64 + slots.entry.ref_ptr.1)) }
{
    let from = start(i);
    let to = from + 56;
    &slots[from..to]
}
