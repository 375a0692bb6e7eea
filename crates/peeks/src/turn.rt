// One call of a sequence, as the dice have it.
use crate::dice::Dice;
use crate::store::Store;
use rules::{Body, Position, RecordNumber, Ticket};

// A body of one byte's value, with kind 1 to 4.
fn body(dice: &mut Dice) -> Body {
    let mut body = [dice.byte(); 52];
    body[4] = 1 + dice.byte() % 4;
    body
}

// The ticket of one of the first four cards, the lower the likelier, or any below 8.
pub fn ticket(dice: &mut Dice, store: &Store) -> Ticket {
    let cards = 1 + dice.roll(5);
    let p = dice.roll(cards);
    if p < 4 {
        desk::ticket_at(&store.desk, Position(p))
    } else {
        Ticket(dice.roll(8))
    }
}

// Every third is unbounded, the others at most 5.
fn budget(dice: &mut Dice) -> u32 {
    if dice.roll(3) == 0 {
        u32::MAX
    } else {
        dice.roll(6)
    }
}

pub fn next(dice: &mut Dice, store: &mut Store, ticket: Ticket) {
    let _ = store.next(ticket, budget(dice), &mut [0; 56]);
}

// Insert, modify, delete or begin.
pub fn other(dice: &mut Dice, store: &mut Store) {
    let number = RecordNumber(dice.roll(10));
    // The number rolled is the choice itself, with its odds: no enum stands between.
    match dice.roll(10) {
        0..=4 => store.insert(number, &body(dice)),
        5 | 6 => store.modify(number, &body(dice)),
        7 => store.delete(number),
        _ => store.begin(),
    }
}
