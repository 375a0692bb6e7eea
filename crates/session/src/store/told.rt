// One call on what is lent, told in one line: the call, the answer's number, its values.
use super::Store;
use crate::answer::Answer;
use crate::call::Call;
use crate::show;
use inarumpit::calls;
use rules::{ChangeAnswer, Draw, RecordNumber};
use std::io;

impl Store {
    pub fn call(&mut self, rt: &impl Print, call: Call) -> io::Result<()> {
        let lent = self.lent;
        // The arrays as slices, and then what is lent of each.
        let desk = &mut self.desk[..];
        let table = &mut self.table[..];
        let shelf = &mut self.shelf[..];
        let desk = &mut desk[..lent.desk.min(1088)];
        let table = &mut table[..lent.table.min(256)];
        let shelf = &mut shelf[..lent.shelf.min(512)];
        match call {
            Call::Open(n) => {
                let answer = Answer(calls::open(desk, table, shelf, n));
                println!(rt; "open {n}: {answer}")
            }
            Call::Insert(number, body) => {
                let body = &body[..lent.body.min(52)];
                let answer = calls::insert(desk, table, shelf, number, body);
                changed(rt, "insert", number, body, answer)
            }
            Call::Modify(number, body) => {
                let body = &body[..lent.body.min(52)];
                let answer = calls::modify(desk, table, shelf, number, body);
                changed(rt, "modify", number, body, answer)
            }
            Call::Delete(number) => {
                let answer = Answer(calls::delete(desk, table, shelf, number));
                println!(rt; "delete {}: {answer}", u32::from(number))
            }
            Call::Begin => {
                let answer = Answer(calls::begin(desk, table, shelf));
                println!(rt; "begin: {answer}")
            }
            Call::Next { ticket, budget } => {
                let mut out = [0; 56];
                let room = &mut out[..lent.out.min(56)];
                let answer = calls::next(desk, table, shelf, ticket, budget, room);
                print!(rt;
                    "next {}, budget {budget}: {}",
                    u32::from(ticket),
                    Answer(answer)
                )?;
                if let Ok(Draw::InHand { .. }) = answer {
                    print!(rt; ", hands ")?;
                    show::version(rt, &out)?;
                }
                println!(rt; "")
            }
            Call::Tally => {
                let answer = Answer(calls::tally(desk, table, shelf));
                println!(rt; "tally: {answer}")
            }
            Call::Owed(ticket) => {
                let answer = Answer(calls::owed(desk, table, shelf, ticket));
                println!(rt; "owed {}: {answer}", u32::from(ticket))
            }
            Call::Peek(ticket) => {
                print!(rt; "peek {}: ", u32::from(ticket))?;
                let part = calls::peek(desk, table, shelf, ticket);
                if part.len() == 56 {
                    show::version(rt, part)?;
                } else {
                    print!(rt; "empty")?;
                }
                println!(rt; "")
            }
        }
    }
}

// The line of a call that is given a number and a body.
fn changed(
    rt: &impl Print,
    name: &str,
    number: RecordNumber,
    body: &[u8],
    answer: ChangeAnswer,
) -> io::Result<()> {
    print!(rt; "{name} {}", u32::from(number))?;
    show::given(rt, body)?;
    println!(rt; ": {}", Answer(answer))
}
