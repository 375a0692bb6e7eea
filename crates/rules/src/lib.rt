// The types that document 01 names, shared by every crate.
// Record number, slot, position and ticket are numbers that mean four separate things: one tuple struct each.
#![tactic(auto)]

ghost use Rattle.std.specs.Prelude.{◌≡◌, ◌+◌, ◌<◌};
ghost use Rattle.rules.specs.Answers.{number_of};
ghost use Rattle.rules.specs.Kinds.{KindOf};

use std::marker::Model;

// The desk, the body of a record, and what is handed out of one: its number and its body.
pub type Desk = [u8; 1088];

pub type Body = [u8; 52];

pub type Version = [u8; 56];

#[derive(Clone, Copy, Debug, PartialEq, Eq)]
pub struct RecordNumber(pub u32);

impl RecordNumber {
    // No record.
    pub const NONE: Self = Self(0);
}

// The number of a slot of the table or of an entry of the shelf.
#[derive(Clone, Copy, Debug, PartialEq, Eq)]
pub struct SlotNumber(pub usize);

// A position. It is below 64: whoever makes one shows it, and whoever takes its number has it.
#[derive(Clone, Copy, Debug, PartialEq, Eq)]
pub struct Position(pub u32);

impl Model for Position {
    ghost use Rattle.std.specs.Prelude.{ℕ, ◌<◌};

    ghost Value = { ℕ };

    ghost view = { λ p. p.0 };

    ghost invariant = { λ p. p.0 < 64 };

    ghost inverse = { λ n. record { 0 = n } };
}

#[derive(Clone, Copy, Debug, Default, PartialEq, Eq, PartialOrd, Ord)]
pub struct Ticket(pub u32);

impl Ticket {
    // No scan.
    pub const NONE: Self = Self(0);

    // The last of all tickets: none can be given after it.
    pub const LAST: Self = Self(4294967295);

    pub fn next(self) -> Ticket
        requires { self.0 < 4294967295 }
        ensures { result.0 ≡ self.0 + 1 }
    {
        Ticket(self.0 + 1)
    }
}

// The numbers as the bytes hold them, the bit of a position in every mask, and how many slots come before one.
impl From<RecordNumber> for u32 {
    ghost from_gives = { λ k w. w ≡ k.0 };

    fn from(k: RecordNumber) -> u32 {
        k.0
    }
}

impl From<Ticket> for u32 {
    ghost from_gives = { λ t w. w ≡ t.0 };

    fn from(t: Ticket) -> u32 {
        t.0
    }
}

impl From<Position> for u32 {
    ghost from_gives = { λ p n. (n ≡ p) × (n < 64) };

    fn from(p: Position) -> u32 {
        p.0
    }
}

impl From<SlotNumber> for usize {
    ghost from_gives = { λ i n. n ≡ i.0 };

    fn from(i: SlotNumber) -> usize {
        i.0
    }
}

// N, T and R as the desk has them.
#[derive(Clone, Copy, Debug, PartialEq, Eq)]
pub struct Counts {
    pub n: u32,
    pub t: u32,
    pub r: u32,
}

// The card of a position: ticket 0 means no scan. The default is that of a position without one.
#[derive(Clone, Copy, Debug, Default, PartialEq, Eq)]
pub struct Card {
    pub ticket: Ticket,
    pub place: u32,
    pub handed: u32,
    pub rest: u32,
}

// Why a call is refused: the lines 1 to 11 of document 01's table, in its order.
#[derive(Clone, Copy, Debug, PartialEq, Eq)]
pub enum Refusal {
    BadLength = 1,
    BadDesk,
    BadNumber,
    BadKind,
    AlreadyThere,
    NotThere,
    TableFull,
    ShelfFull,
    NoPosition,
    NoScan,
    NoTicket,
}

// The number that comes back.
impl From<Refusal> for u8 {
    ghost from_gives = { λ r j. j ≡ number_of r };

    #[tactic(auto, unfolding(crate::specs::Answers::number_of))]
    fn from(r: Refusal) -> u8 {
        r as u8
    }
}

// What a record is, by the byte that tells it: a bound policy, a written quote, a spoken quote.
#[derive(Clone, Copy, Debug, PartialEq, Eq)]
pub enum Kind {
    Bound = 1,
    Written,
    Spoken,
}

impl TryFrom<u8> for Kind {
    type Error = Refusal;

    ghost try_from_gives = { KindOf };

    fn try_from(byte: u8) -> Result<Kind, Refusal> {
        match byte {
            1 => Ok(Kind::Bound),
            2 => Ok(Kind::Written),
            3 => Ok(Kind::Spoken),
            _ => Err(Refusal::BadKind),
        }
    }
}

// What next tells that is not refused. The looks made and the budget left come with it.
#[derive(Clone, Copy, Debug, PartialEq, Eq)]
pub enum Draw {
    InHand { looks: u32, left: u32 },
    Paused { looks: u32 },
    Finished { looks: u32, left: u32, handed: u32 },
}

// What tally counts: the records of the table and the entries of the shelf.
#[derive(Clone, Copy, Debug, PartialEq, Eq)]
pub struct Tally {
    pub records: u32,
    pub entries: u32,
}

// How many records a scan is owed.
#[derive(Clone, Copy, Debug, PartialEq, Eq)]
pub struct Owed(pub u32);

// What each call answers: open, insert, modify and delete; begin; next; tally; owed.
pub type ChangeAnswer = Result<(), Refusal>;

pub type BeginAnswer = Result<Ticket, Refusal>;

pub type NextAnswer = Result<Draw, Refusal>;

pub type TallyAnswer = Result<Tally, Refusal>;

pub type OwedAnswer = Result<Owed, Refusal>;
