// The rules of the desk's head: N, T, R and the high bits of the masks.
ghost use Rattle.std.specs.Prelude.{◌&&◌, ◌≡◌, eqb};
ghost use Rattle.rules.specs.Masks.{from};
ghost use Rattle.rules.specs.Sound.{n_in_range};
ghost use Rattle.masks.specs.Held.{held};
ghost use Rattle.numbers.specs.Head.{high_bits};

use masks::Masks;
use rules::Counts;

// N in range, T and R the slot counts.
pub fn counts_sound(counts: Counts, slots: usize, entries: usize) -> bool
    ensures { result ≡ n_in_range counts.n && (eqb counts.t slots && eqb counts.r entries) }
{
    (1..=64).contains(&counts.n) & ((counts.t as usize == slots) & (counts.r as usize == entries))
}

// The bits of x from n up.
#[tactic(auto, using(crate::proofs::HighBits::from_past), unfolding(rules::specs::Masks::from))]
fn bits_from(n: u32, x: u64) -> u64
    ensures { result ≡ from n x }
{
    x.checked_shr(n).unwrap_or(0)
}

// Bits from n up: 0 in the stable mask and 1 in both active masks.
pub fn high_bits_sound(n: u32, m: Masks) -> bool
    ensures { result ≡ high_bits n (held m) }
{
    let set = bits_from(n, Masks::ALL_ONES);
    (bits_from(n, m.stable) == 0)
        & ((bits_from(n, m.active) == set) & (bits_from(n, m.local) == set))
}
