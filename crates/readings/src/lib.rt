// The calls that read only, of a store whose way in is open: peek, tally and owed.
#![tactic(auto)]

ghost use Rattle.rules.specs.Answers.{tally_tells, owed_says};
ghost use Rattle.rules.specs.Promises.{Tells, TellsUnderAnyDesk, kept};
ghost use Rattle.rules.specs.Refusals.{Call, Reading};

use masks::Awaiting;
use rules::{Owed, OwedAnswer, Refusal, Tally, Ticket};
use running::store::Store;

pub mod peek;

#[tactic(auto, using(crate::proofs::Owes::tallies))]
pub fn tally(store: &Store) -> Tally
    ensures { TellsUnderAnyDesk (tally_tells result) (kept store.now.table.now) (kept store.now.shelf.now)
        (Call.reading Reading.tally) }
{
    Tally {
        records: counts::used(store.table),
        entries: counts::used(store.shelf),
    }
}

#[tactic(auto, using(crate::proofs::Owes::owes_none, crate::proofs::Owes::owes, crate::proofs::Owes::owed_fits), unfolding(rules::specs::Answers::says, rules::specs::Answers::number_of))]
pub fn owed(store: &Store, ticket: Ticket) -> OwedAnswer
    ensures { Tells (owed_says result) (kept store.now.desk.now) (kept store.now.table.now)
        (kept store.now.shelf.now) (Call.reading (Reading.owed ticket.0)) }
{
    let Some(p) = running::scan_of(store.desk, ticket) else {
        return Err(Refusal::NoScan);
    };
    let stable = desk::masks_at(store.desk).stable;
    let records = counts::waiting(store.table, Awaiting::in_table(stable, p));
    let entries = counts::waiting(store.shelf, Awaiting::on_shelf(p));
    Ok(Owed(records + entries))
}
