// The rules of the desk before its cards: N, T, R, the reserved bytes and the high bits of the masks.
ghost use Rattle.std.specs.Prelude.{◌≡◌};
ghost use Rattle.rules.specs.Memory.{desk_of};
ghost use Rattle.rules.specs.Sound.{head_rules, all_hold};

use crate::words;
use rules::Desk;

// N in range, T and R the slot counts, reserved bytes and high bits as they must be.
#[tactic(auto, using(crate::proofs::HeadRules::head_by))]
pub fn head_sound(desk: &Desk, slots: usize, entries: usize) -> bool
    ensures { result ≡ all_hold (head_rules (desk_of desk.now) slots entries) }
{
    let counts = desk::counts(desk);
    let counted = numbers::head::counts_sound(counts, slots, entries);
    let reserved = words::zero_words(desk, 5, 8);
    let high = numbers::head::high_bits_sound(counts.n, desk::masks_at(desk));
    counted & (reserved & high)
}
