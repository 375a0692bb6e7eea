// The calls, as a line of a script names them.
use crate::line;
use layout::Word;
use rules::{Body, RecordNumber, Ticket};

#[derive(Clone, Copy, Debug, PartialEq, Eq)]
pub enum Call {
    Open(u32),
    Insert(RecordNumber, Body),
    Modify(RecordNumber, Body),
    Delete(RecordNumber),
    Begin,
    Next { ticket: Ticket, budget: u32 },
    Tally,
    Owed(Ticket),
    Peek(Ticket),
}

impl Call {
    // By the first letter, and by the second for open and owed.
    pub fn parse(line: &[u8]) -> Option<Self> {
        let x = line::word(line, 1);
        let call = match line {
            [b'o', b'p', ..] => Call::Open(x),
            [b'i', ..] => Call::Insert(RecordNumber(x), body(line)),
            [b'm', ..] => Call::Modify(RecordNumber(x), body(line)),
            [b'd', ..] => Call::Delete(RecordNumber(x)),
            [b'b', ..] => Call::Begin,
            [b'n', ..] => Call::Next {
                ticket: Ticket(x),
                budget: line::word(line, 2),
            },
            [b't', ..] => Call::Tally,
            [b'o', ..] => Call::Owed(Ticket(x)),
            [b'p', ..] => Call::Peek(Ticket(x)),
            _ => return None,
        };
        Some(call)
    }
}

// A body: start day, kind, and a letter in each byte of the host's.
fn body(line: &[u8]) -> Body {
    let mut body = [line::byte(line, 4); 52];
    line::word(line, 2).put_at(&mut body, 0);
    body[4] = line::byte(line, 3);
    body
}
