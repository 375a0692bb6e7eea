// Peek beside next with unbounded budget on a copy of the store.
use crate::seen::Compared;
use crate::store::Store;
use rules::{Draw, Ticket};

pub fn peek_and_next(store: &Store, ticket: Ticket) -> Compared {
    let mut copy = *store;
    let mut out = [0; 56];
    let answer = copy.next(ticket, u32::MAX, &mut out);
    let part = store.peek(ticket);
    match answer {
        Ok(Draw::InHand { .. }) if part == out.as_slice() => Compared::InHand,
        Ok(Draw::InHand { .. }) => Compared::Different,
        _ if part.is_empty() => Compared::Empty,
        _ => Compared::Different,
    }
}
