// The three masks of the desk, by value: each move of document 000, section III-A, hands them back.
#![tactic(auto)]

ghost use Rattle.std.specs.Prelude.{◌≡◌, bit_xor};
ghost use Rattle.rules.specs.Masks.{fresh as fresh_masks, walk_begun as begun_masks, walk_ended, ended as ended_masks, new_status, m_of, on, off, scan_mask};
ghost use Rattle.masks.specs.Held.{held};

use rules::Position;

#[derive(Clone, Copy, Debug, PartialEq, Eq)]
pub struct Masks {
    pub stable: u64,
    pub active: u64,
    pub local: u64,
}

impl Masks {
    pub const ALL_ONES: u64 = 0xffff_ffff_ffff_ffff;

    // The masks of a fresh desk: both active masks all ones.
    pub fn fresh() -> Self
        ensures { held result ≡ fresh_masks }
    {
        Self {
            stable: 0,
            active: Self::ALL_ONES,
            local: Self::ALL_ONES,
        }
    }

    // A scan takes position p: its bit is cleared in both active masks.
    pub fn begun(self, p: Position) -> Self
        ensures { held result ≡ begun_masks (held self) p }
    {
        let others = !scan_mask(p);
        Self {
            active: self.active & others,
            local: self.local & others,
            ..self
        }
    }

    // The table walk of the scan at p ends: the stable bit turns, the local active bit becomes 1, the active bit stays 0.
    pub fn walk_ended(self, p: Position) -> Self
        ensures { held result ≡ walk_ended (held self) p }
    {
        let own = scan_mask(p);
        Self {
            stable: self.stable ^ own,
            local: self.local | own,
            ..self
        }
    }

    // The scan at p is finished: its position is free again.
    pub fn ended(self, p: Position) -> Self
        ensures { held result ≡ ended_masks (held self) p }
    {
        let own = scan_mask(p);
        Self {
            active: self.active | own,
            ..self
        }
    }

    // The status of a new or changed record.
    pub fn new_status(self) -> u64
        ensures { result ≡ new_status (held self) }
    {
        !(self.stable ^ self.local)
    }

    // m of a version with this status: a 0 bit for each scan that still awaits it.
    pub fn m_of(self, status: u64) -> u64
        ensures { result ≡ m_of (held self) status }
    {
        (self.stable ^ status) | self.local
    }
}

// How a scan knows that it awaits a version: its bit of (flip XOR mask) is 0. In the table flip is the stable mask; on the shelf
// it is 0, since there an entry waits for a scan where its own bit is 0.
#[derive(Clone, Copy, Debug, PartialEq, Eq)]
pub struct Awaiting {
    pub flip: u64,
    pub position: Position,
}

impl Awaiting {
    pub fn in_table(stable: u64, p: Position) -> Self
        ensures { (result.flip ≡ stable) × (result.position ≡ p) }
    {
        Self {
            flip: stable,
            position: p,
        }
    }

    pub fn on_shelf(p: Position) -> Self
        ensures { (result.flip ≡ 0) × (result.position ≡ p) }
    {
        Self {
            flip: 0,
            position: p,
        }
    }

    // Whether it awaits the version with this mask.
    #[tactic(auto, using(rules::proofs::Bits::not_on))]
    pub fn awaits(&self, mask: u64) -> bool
        ensures { result ≡ off (bit_xor self.now.flip mask) self.now.position }
    {
        !has_bit(self.flip ^ mask, self.position)
    }
}

// The bit of a position and no other.
pub fn scan_mask(p: Position) -> u64
    ensures { result ≡ scan_mask p }
{
    1u64 << u32::from(p)
}

pub fn has_bit(x: u64, p: Position) -> bool
    ensures { result ≡ on x p }
{
    (x >> u32::from(p)) % 2 == 1
}
