// A sequence: a small store opened, and fifty calls on it.
use crate::dice::Dice;
use crate::seen::{Compared, Seen};
use crate::store::Store;
use crate::{compare, hostile, turn};
use std::io;

// Peek compared, and then next.
fn peek_then_next(dice: &mut Dice, store: &mut Store) -> Compared {
    let ticket = turn::ticket(dice, store);
    let compared = compare::peek_and_next(store, ticket);
    turn::next(dice, store, ticket);
    compared
}

// The same, with bytes changed behind the store's back; the desk is put back where it is no longer sound.
fn hostile_peek_then_next(dice: &mut Dice, store: &mut Store) -> Compared {
    let before = store.desk;
    hostile::spoil(dice, store);
    let compared = peek_then_next(dice, store);
    if !store.is_sound() {
        store.desk = before;
    }
    compared
}

// One call, before a next its peek compared.
fn one(dice: &mut Dice, store: &mut Store) -> Option<Compared> {
    // The number rolled is the choice itself, with its odds: no enum stands between.
    match dice.roll(16) {
        0..=4 => Some(peek_then_next(dice, store)),
        5 => Some(hostile_peek_then_next(dice, store)),
        _ => {
            turn::other(dice, store);
            None
        }
    }
}

// The store opened and fifty calls, each counted; one where peek differs is told by its number.
pub fn run(rt: &impl Print, number: u32, seen: &mut Seen) -> io::Result<()> {
    let mut dice = Dice::seeded(number);
    let mut store = Store::opened(&mut dice);
    seen.called();
    for call in 0..50 {
        seen.called();
        if let Some(compared) = one(&mut dice, &mut store) {
            seen.compared(compared);
            if compared == Compared::Different {
                println!(rt; "sequence {number}, call {call}: peek differs")?;
            }
        }
    }
    Ok(())
}
