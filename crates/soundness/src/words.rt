// The desk as 136 words of 64 bits: 5 to 7 are reserved, from 8 on two to a card.
ghost use Rattle.std.specs.Prelude.{◌≡◌, ◌≤◌};
ghost use Rattle.soundness.specs.Words.{zero_words};

use layout::Word;
use rules::Desk;

// The words from a up to b are zero.
#[tactic(auto, using(crate::proofs::WordsRead::words_more, crate::proofs::Every::every_none))]
pub fn zero_words(desk: &Desk, a: usize, b: usize) -> bool
    requires { (a ≤ b) × (b ≤ 136) }
    ensures { result ≡ zero_words desk.now a b }
{
    let mut seen: u64 = 0;
    for i in a..b {
        seen |= u64::at(desk, i * 8);
    }
    seen == 0
}
