// The nine calls for Rattle callers: any bytes of any length, any numbers; a refusal changes no byte.
// The calls that change something are lent desk, table and shelf each as they may change it: a struct of the three would lend all
// three alike.
ghost use Rattle.std.specs.Prelude.{true, ◌≡◌};
ghost use Rattle.rules.specs.Answers.{Answer, Shown, change_says, begin_says, next_says, tally_says, owed_says};
ghost use Rattle.rules.specs.Promises.{Answers, HandsOut, NoCopy, rewritten, kept};
ghost use Rattle.rules.specs.Refusals.{Call, Change, Reading};
ghost use Rattle.inarumpit.specs.WayIn.{LetsIn, LetsInAll};

use rules::{
    BeginAnswer, ChangeAnswer, Desk, NextAnswer, OwedAnswer, RecordNumber, Refusal, TallyAnswer,
    Ticket,
};
use running::store::Store;

// The way in of every call that looks at the desk: lengths, then the desk, which is handed on as what it is.
fn way_in<'a>(desk: &'a [u8], table: &[u8], shelf: &[u8]) -> Result<&'a Desk, Refusal>
    ensures { LetsIn result true true desk.now table.now shelf.now }
{
    if !numbers::lengths::lengths_right(desk.len(), table.len(), shelf.len()) {
        return Err(Refusal::BadLength);
    }
    let whole = desk.as_array().unwrap();
    if !soundness::is_sound(whole, table, shelf) {
        return Err(Refusal::BadDesk);
    }
    Ok(whole)
}

// The way in of a call that reads only: the three are handed on as a store. The other calls take the desk alone: with a store, tried,
// they cost up to 42 instructions more.
fn way_in_to_read<'d, 's>(
    desk: &'d [u8],
    table: &'s [u8],
    shelf: &'s [u8],
) -> Result<Store<'d, 's>, Refusal>
    ensures { LetsInAll result desk.now table.entry shelf.entry }
{
    let desk = way_in(desk, table, shelf)?;
    Ok(Store { desk, table, shelf })
}

pub fn open(desk: &mut [u8], table: &mut [u8], shelf: &mut [u8], n: u32) -> ChangeAnswer
    ensures { Answers (change_says result) (rewritten desk.old desk.new) (rewritten table.old table.new)
        (rewritten shelf.old shelf.new) (Call.opening n) }
{
    if !numbers::lengths::lengths_right(desk.len(), table.len(), shelf.len()) {
        return Err(Refusal::BadLength);
    }
    let desk = desk.as_mut_array().unwrap();
    opening::open(desk, table, shelf, n)
}

pub fn insert(
    desk: &[u8],
    table: &mut [u8],
    shelf: &[u8],
    k: RecordNumber,
    body: &[u8],
) -> ChangeAnswer
    ensures { Answers (change_says result) (kept desk.now) (rewritten table.old table.new)
        (kept shelf.now) (Call.change (Change.insert k.0 body.now)) }
{
    let Some(body) = body.as_array() else {
        return Err(Refusal::BadLength);
    };
    let desk = way_in(desk, table, shelf)?;
    changes::insert(desk, table, k, body)
}

pub fn modify(
    desk: &[u8],
    table: &mut [u8],
    shelf: &mut [u8],
    k: RecordNumber,
    body: &[u8],
) -> ChangeAnswer
    ensures { Answers (change_says result) (kept desk.now) (rewritten table.old table.new)
        (rewritten shelf.old shelf.new) (Call.change (Change.modify k.0 body.now)) }
{
    let Some(body) = body.as_array() else {
        return Err(Refusal::BadLength);
    };
    let desk = way_in(desk, table, shelf)?;
    changes::modify(desk, table, shelf, k, body)
}

pub fn delete(desk: &[u8], table: &mut [u8], shelf: &mut [u8], k: RecordNumber) -> ChangeAnswer
    ensures { Answers (change_says result) (kept desk.now) (rewritten table.old table.new)
        (rewritten shelf.old shelf.new) (Call.change (Change.delete k.0)) }
{
    let desk = way_in(desk, table, shelf)?;
    changes::delete(desk, table, shelf, k)
}

pub fn begin(desk: &mut [u8], table: &[u8], shelf: &[u8]) -> BeginAnswer
    ensures { Answers (begin_says result) (rewritten desk.old desk.new) (kept table.now) (kept shelf.now) Call.begin }
{
    way_in(desk, table, shelf)?;
    let desk = desk.as_mut_array().unwrap();
    begins::begin(desk)
}

pub fn next(
    desk: &mut [u8],
    table: &mut [u8],
    shelf: &mut [u8],
    ticket: Ticket,
    budget: u32,
    out: &mut [u8],
) -> NextAnswer
    ensures { HandsOut (next_says result) (rewritten desk.old desk.new) (rewritten table.old table.new)
        (rewritten shelf.old shelf.new) (rewritten out.old out.new)
        (Call.next ticket.0 budget out.old) }
{
    let Some(out) = out.as_mut_array() else {
        return Err(Refusal::BadLength);
    };
    way_in(desk, table, shelf)?;
    let desk = desk.as_mut_array().unwrap();
    draws::next(desk, table, shelf, ticket, budget, out)
}

pub fn tally(desk: &[u8], table: &[u8], shelf: &[u8]) -> TallyAnswer
    ensures { Answers (tally_says result) (kept desk.now) (kept table.now) (kept shelf.now)
        (Call.reading Reading.tally) }
{
    let store = way_in_to_read(desk, table, shelf)?;
    Ok(readings::tally(&store))
}

pub fn owed(desk: &[u8], table: &[u8], shelf: &[u8], ticket: Ticket) -> OwedAnswer
    ensures { Answers (owed_says result) (kept desk.now) (kept table.now) (kept shelf.now)
        (Call.reading (Reading.owed ticket.0)) }
{
    let store = way_in_to_read(desk, table, shelf)?;
    readings::owed(&store, ticket)
}

// The 56 bytes that next with unbounded budget would hand out, as a part of table or shelf; in every other case an empty part, as
// document 01 has it.
pub fn peek<'a>(desk: &[u8], table: &'a [u8], shelf: &'a [u8], ticket: Ticket) -> &'a [u8]
    ensures { Answers (Answer.shown (Shown.part result.now)) (kept desk.now) (kept table.now)
        (kept shelf.now) (Call.reading (Reading.peek ticket.0))
        × NoCopy result desk.entry table.entry shelf.entry ticket.0 }
{
    match way_in_to_read(desk, table, shelf) {
        Ok(store) => readings::peek::peek(&store, ticket),
        Err(_) => &table[..0],
    }
}
