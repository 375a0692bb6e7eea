// Whether the desk is sound.
#![tactic(auto)]

ghost use Rattle.std.specs.Prelude.{◌≡◌, ◌+◌, ◌/◌, ◌<◌, length};
ghost use Rattle.rules.specs.Memory.{store_of};
ghost use Rattle.rules.specs.Sound.{sound};

use rules::Desk;

mod cards;
mod head;
mod words;

// The desk is sound. A function of its own in the archive: a call that is refused by its lengths does not pay for its frame.
#[inline(never)]
#[tactic(auto, using(crate::proofs::Sound::sound_is))]
pub fn is_sound(desk: &Desk, table: &[u8], shelf: &[u8]) -> bool
    requires { length table.now / 64 + length shelf.now / 64 < 4294967296 }
    ensures { result ≡ sound (store_of desk.now table.now shelf.now) }
{
    let slots = table.len() / 64;
    let entries = shelf.len() / 64;
    head::head_sound(desk, slots, entries) && cards::cards_sound(desk, slots, entries)
}
