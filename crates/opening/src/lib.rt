// Open, on buffers of right lengths.
#![tactic(auto)]

ghost use Rattle.std.specs.Prelude.{◌≡◌, ◌/◌, ◌<◌, length};
ghost use Rattle.rules.specs.Answers.{change_says};
ghost use Rattle.rules.specs.Promises.{Tells, rewritten};
ghost use Rattle.rules.specs.Refusals.{Call};

use rules::{ChangeAnswer, Counts, Desk, Refusal};

pub fn open(desk: &mut Desk, table: &mut [u8], shelf: &mut [u8], n: u32) -> ChangeAnswer
    requires { (length table.old / 64 < 4294967296) × (length shelf.old / 64 < 4294967296) }
    ensures { Tells (change_says result) (rewritten desk.old desk.new) (rewritten table.old table.new)
        (rewritten shelf.old shelf.new) (Call.opening n) }
{
    let is_n = (1..=64).contains(&n);
    if !is_n {
        return Err(Refusal::BadNumber);
    }
    let t = slots::slot_count(table) as u32;
    let r = slots::slot_count(shelf) as u32;
    desk::write::put_fresh(desk, Counts { n, t, r });
    table.fill(0);
    shelf.fill(0);
    Ok(())
}
