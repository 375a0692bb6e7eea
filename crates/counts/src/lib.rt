// Counts over the slots of a table or the entries of a shelf: those in use, and the versions that a scan awaits.
#![tactic(auto)]

ghost use Rattle.std.specs.Prelude.{◌≡◌, ◌+◌, ◌/◌, ◌≤◌, ◌<◌, length};
ghost use Rattle.rules.specs.Calls.{used as used_of, count};
ghost use Rattle.rules.specs.Memory.{slot_at, slots_of};
ghost use Rattle.joins.specs.Search.{waiting as waiting_in};
ghost use Rattle.counts.specs.Waiting.{Counted};

use masks::Awaiting;
use rules::SlotNumber;

// The slots in use.
pub fn used(slots: &[u8]) -> u32
    requires { length slots.now / 64 < 4294967296 }
    ensures { result ≡ used_of (slots_of slots.now) }
{
    let mut n: u32 = 0;
    for i in 0..slots::slot_count(slots) {
        n += u32::from(slots::in_use(slots, SlotNumber(i)));
    }
    n
}

// Whether the scan awaits the version in slot i.
fn waits(slots: &[u8], i: usize, scan: &Awaiting) -> bool
    requires { i < length slots.now / 64 }
    ensures { result ≡ waiting_in scan.now.flip scan.now.position (slot_at slots.now i) }
{
    let here = SlotNumber(i);
    slots::in_use(slots, here) & scan.awaits(slots::mask_at(slots, here))
}

// The versions in the four slots from i on that the scan awaits.
fn waiting_of_four(slots: &[u8], i: usize, scan: &Awaiting) -> u32
    requires { i + 4 ≤ length slots.now / 64 }
    ensures { (result ≤ 4) × Counted scan.now.flip scan.now.position slots.now i (i + 4) result }
{
    u32::from(waits(slots, i, scan))
        + u32::from(waits(slots, i + 1, scan))
        + u32::from(waits(slots, i + 2, scan))
        + u32::from(waits(slots, i + 3, scan))
}

// Slots passed: the versions in them that a scan awaits, and the slot after the last.
#[derive(Clone, Copy, Debug, PartialEq, Eq)]
struct Run {
    waiting: u32,
    next: usize,
}

// Past the blocks of four slots in use from `from` on, with the versions there that the scan awaits.
fn run_in_use(slots: &[u8], from: usize, scan: &Awaiting) -> Run
    requires { (from ≤ length slots.now / 64) × (length slots.now / 64 < 4294967296) }
    ensures { (from + result.waiting ≤ result.next) × (result.next ≤ length slots.now / 64) × Counted scan.now.flip scan.now.position slots.now from result.next result.waiting }
{
    let blocks = (slots::slot_count(slots) - from) / 4;
    let mut n: u32 = 0;
    for block in 0..blocks {
        let i = from + 4 * block;
        let a = slots::in_use(slots, SlotNumber(i));
        let b = slots::in_use(slots, SlotNumber(i + 1));
        let c = slots::in_use(slots, SlotNumber(i + 2));
        let d = slots::in_use(slots, SlotNumber(i + 3));
        let all = (a & b) & (c & d);
        if !all {
            return Run {
                waiting: n,
                next: i,
            };
        }
        n += waiting_of_four(slots, i, scan);
    }
    Run {
        waiting: n,
        next: from + 4 * blocks,
    }
}

// The versions that the scan awaits.
pub fn waiting(slots: &[u8], scan: Awaiting) -> u32
    requires { length slots.now / 64 < 4294967296 }
    ensures { result ≡ count (waiting_in scan.flip scan.position) (slots_of slots.now) }
{
    let end = slots::slot_count(slots);
    let mut n: u32 = 0;
    let mut i: usize = 0;
    // The next slot is where a run of full or of empty blocks ends. Over a range, slot by slot, tried: 3.4 times the instructions on a
    // shelf that is mostly empty.
    loop {
        let run = run_in_use(slots, i, &scan);
        n += run.waiting;
        i = run.next;
        if i + 4 > end {
            break;
        }
        let next = usize::from(search::past_empty(slots, SlotNumber(i), SlotNumber(end)));
        if next > i {
            i = next;
            continue;
        }
        n += waiting_of_four(slots, i, &scan);
        i += 4;
    }
    for last in i..end {
        n += u32::from(waits(slots, last, &scan));
    }
    n
}
