// Bytes changed behind the store's back.
ghost use Rattle.std.specs.Prelude.{◌<◌, ◌≤◌, length};

use crate::dice::Dice;
use crate::store::Store;

// One byte, whichever, to any value.
fn spoil_one(dice: &mut Dice, bytes: &mut [u8])
    requires { (0 < length bytes.old) × (length bytes.old ≤ 1088) }
{
    let i = dice.roll(bytes.len() as u32) as usize;
    bytes[i] = dice.byte();
}

// A byte of the masks, of the first four cards, or any of the desk; one of the table, and one of the shelf.
pub fn spoil(dice: &mut Dice, store: &mut Store) {
    let desk = &mut store.desk[..];
    // The number rolled is the choice itself: no enum stands between.
    match dice.roll(4) {
        0 => spoil_one(dice, desk),
        1 => spoil_one(dice, &mut desk[16..40]),
        _ => spoil_one(dice, &mut desk[64..128]),
    }
    spoil_one(dice, &mut store.table);
    spoil_one(dice, &mut store.shelf);
}
