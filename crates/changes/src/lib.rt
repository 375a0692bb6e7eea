// The calls that change records, on a sound desk and buffers of right lengths: insert, modify and delete.
#![tactic(auto)]

ghost use Rattle.std.specs.Prelude.{◌≡◌, ℕ, ◌+◌, ◌*◌, ◌-◌, ◌/◌, ◌≤◌, ◌<◌, length};
ghost use Rattle.rules.specs.Answers.{change_says};
ghost use Rattle.rules.specs.Promises.{Tells, TellsOverAnyShelf, rewritten, kept};
ghost use Rattle.rules.specs.Refusals.{Call, Change, kind_right};

use rules::{Body, ChangeAnswer, Desk, Kind, RecordNumber, Refusal, SlotNumber};
use shelving::Kept;

pub fn insert(desk: &Desk, table: &mut [u8], k: RecordNumber, body: &Body) -> ChangeAnswer
    ensures { TellsOverAnyShelf (change_says result) (kept desk.now) (rewritten table.old table.new)
        (Call.change (Change.insert k.0 body.now)) }
{
    if k == RecordNumber::NONE {
        return Err(Refusal::BadNumber);
    }
    Kind::try_from(body[4])?;
    let Some(free) = search::bearing_or_empty(table, k) else {
        return Err(Refusal::TableFull);
    };
    let is_there = search::bearing(table, k, free).is_some();
    if is_there {
        return Err(Refusal::AlreadyThere);
    }
    let status = desk::masks_at(desk).new_status();
    slots::write::put_record(table, free, k, body, status);
    Ok(())
}

pub fn modify(
    desk: &Desk,
    table: &mut [u8],
    shelf: &mut [u8],
    k: RecordNumber,
    body: &Body,
) -> ChangeAnswer
    ensures { Tells (change_says result) (kept desk.now) (rewritten table.old table.new)
        (rewritten shelf.old shelf.new) (Call.change (Change.modify k.0 body.now)) }
{
    if k == RecordNumber::NONE {
        return Err(Refusal::BadNumber);
    }
    Kind::try_from(body[4])?;
    let Some(there) = search::bearing(table, k, SlotNumber(0)) else {
        return Err(Refusal::NotThere);
    };
    let masks = desk::masks_at(desk);
    // Modify tells the 8 itself and hands none on, so that an edit can turn it apart from delete's.
    let Ok(kept) = shelving::keep(masks, table, shelf, there) else {
        return Err(Refusal::ShelfFull);
    };
    slots::write::put_body(table, there, body);
    match kept {
        Kept::Unawaited => {}
        Kept::Shelved => slots::write::put_mask(table, there, masks.new_status()),
    }
    Ok(())
}

pub fn delete(desk: &Desk, table: &mut [u8], shelf: &mut [u8], k: RecordNumber) -> ChangeAnswer
    ensures { Tells (change_says result) (kept desk.now) (rewritten table.old table.new)
        (rewritten shelf.old shelf.new) (Call.change (Change.delete k.0)) }
{
    if k == RecordNumber::NONE {
        return Err(Refusal::BadNumber);
    }
    let Some(i) = search::bearing(table, k, SlotNumber(0)) else {
        return Err(Refusal::NotThere);
    };
    shelving::keep(desk::masks_at(desk), table, shelf, i)?;
    slots::write::free(table, i);
    Ok(())
}
