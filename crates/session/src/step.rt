// What a line of a script has done: its first letter says which step, and the words after it with what.
use crate::call::Call;
use crate::line;

// How many bytes of desk, table, shelf, body and hand-out buffer are lent.
// Lengths and no slices: a script lends now more, now less of buffers that keep all their bytes.
#[derive(Clone, Copy, Debug, Default, PartialEq, Eq)]
pub struct Lengths {
    pub desk: usize,
    pub table: usize,
    pub shelf: usize,
    pub body: usize,
    pub out: usize,
}

#[derive(Clone, Copy, Debug, PartialEq, Eq)]
pub enum Step<'a> {
    Alter { at: usize, byte: u8 },
    Fill { desk: u8, table: u8, shelf: u8 },
    Lend(Lengths),
    Returned { ticket: u32, budget: u32 },
    Show,
    Write(&'a [u8]),
    Call(Call),
}

impl<'a> Step<'a> {
    pub fn parse(line: &'a [u8]) -> Option<Self> {
        let step = match line {
            [b'a', ..] => Step::Alter {
                at: line::length(line, 1),
                byte: line::byte(line, 2),
            },
            [b'f', ..] => Step::Fill {
                desk: line::byte(line, 1),
                table: line::byte(line, 2),
                shelf: line::byte(line, 3),
            },
            [b'l', ..] => Step::Lend(Lengths {
                desk: line::length(line, 1),
                table: line::length(line, 2),
                shelf: line::length(line, 3),
                body: line::length(line, 4),
                out: line::length(line, 5),
            }),
            [b'r', ..] => Step::Returned {
                ticket: line::word(line, 1),
                budget: line::word(line, 2),
            },
            [b's', ..] => Step::Show,
            [b'w', ..] => Step::Write(line.get(6..).unwrap_or(b"")),
            _ => Step::Call(Call::parse(line)?),
        };
        Some(step)
    }
}
