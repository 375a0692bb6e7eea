// The static library that a C host links: numbers and byte buffers in, one 64-bit number back, answer + 256 × value. The C
// interface has the eight functions and their parameters.
#![tactic(auto)]

ghost use Rattle.rules.specs.Promises.{Returns, ReturnsOut, rewritten, kept};
ghost use Rattle.rules.specs.Refusals.{Call, Change, Reading};

use inarumpit::calls;
use rules::{RecordNumber, Ticket};

#[unsafe(no_mangle)]
pub extern "C" fn inarumpit_open(desk: &mut [u8], table: &mut [u8], shelf: &mut [u8], n: u32) -> u64
    ensures { Returns result (rewritten desk.old desk.new) (rewritten table.old table.new)
        (rewritten shelf.old shelf.new) (Call.opening n) }
{
    packing::number(calls::open(desk, table, shelf, n))
}

#[unsafe(no_mangle)]
pub extern "C" fn inarumpit_insert(
    desk: &[u8],
    table: &mut [u8],
    shelf: &[u8],
    number: u32,
    body: &[u8],
) -> u64
    ensures { Returns result (kept desk.now) (rewritten table.old table.new) (kept shelf.now)
        (Call.change (Change.insert number body.now)) }
{
    packing::number(calls::insert(desk, table, shelf, RecordNumber(number), body))
}

#[unsafe(no_mangle)]
pub extern "C" fn inarumpit_modify(
    desk: &[u8],
    table: &mut [u8],
    shelf: &mut [u8],
    number: u32,
    body: &[u8],
) -> u64
    ensures { Returns result (kept desk.now) (rewritten table.old table.new)
        (rewritten shelf.old shelf.new) (Call.change (Change.modify number body.now)) }
{
    packing::number(calls::modify(desk, table, shelf, RecordNumber(number), body))
}

#[unsafe(no_mangle)]
pub extern "C" fn inarumpit_delete(
    desk: &[u8],
    table: &mut [u8],
    shelf: &mut [u8],
    number: u32,
) -> u64
    ensures { Returns result (kept desk.now) (rewritten table.old table.new)
        (rewritten shelf.old shelf.new) (Call.change (Change.delete number)) }
{
    packing::number(calls::delete(desk, table, shelf, RecordNumber(number)))
}

#[unsafe(no_mangle)]
pub extern "C" fn inarumpit_begin(desk: &mut [u8], table: &[u8], shelf: &[u8]) -> u64
    ensures { Returns result (rewritten desk.old desk.new) (kept table.now) (kept shelf.now) Call.begin }
{
    packing::number(calls::begin(desk, table, shelf))
}

#[unsafe(no_mangle)]
pub extern "C" fn inarumpit_next(
    desk: &mut [u8],
    table: &mut [u8],
    shelf: &mut [u8],
    ticket: u32,
    budget: u32,
    out: &mut [u8],
) -> u64
    ensures { ReturnsOut result (rewritten desk.old desk.new) (rewritten table.old table.new)
        (rewritten shelf.old shelf.new) (rewritten out.old out.new)
        (Call.next ticket budget out.old) }
{
    packing::number(calls::next(desk, table, shelf, Ticket(ticket), budget, out))
}

#[unsafe(no_mangle)]
pub extern "C" fn inarumpit_tally(desk: &[u8], table: &[u8], shelf: &[u8]) -> u64
    ensures { Returns result (kept desk.now) (kept table.now) (kept shelf.now) (Call.reading Reading.tally) }
{
    packing::number(calls::tally(desk, table, shelf))
}

#[unsafe(no_mangle)]
pub extern "C" fn inarumpit_owed(desk: &[u8], table: &[u8], shelf: &[u8], ticket: u32) -> u64
    ensures { Returns result (kept desk.now) (kept table.now) (kept shelf.now) (Call.reading (Reading.owed ticket)) }
{
    packing::number(calls::owed(desk, table, shelf, Ticket(ticket)))
}
