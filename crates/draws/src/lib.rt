// Next, on a sound desk and buffers of right lengths.
#![tactic(auto)]

ghost use Rattle.std.specs.Prelude.{◌≡◌};
ghost use Rattle.rules.specs.Answers.{next_says, next_tells};
ghost use Rattle.rules.specs.Memory.{store_of};
ghost use Rattle.rules.specs.Promises.{TellsOut, rewritten};
ghost use Rattle.rules.specs.Next.{told, walk};
ghost use Rattle.rules.specs.Refusals.{Call};
ghost use Rattle.running.specs.Scan.{Ready, Runs};

use looks::walk::Seen;
use rules::{Desk, Draw, NextAnswer, Position, Refusal, Ticket, Version};
use settle::Scan;

pub fn next(
    desk: &mut Desk,
    table: &mut [u8],
    shelf: &mut [u8],
    ticket: Ticket,
    budget: u32,
    out: &mut Version,
) -> NextAnswer
    requires { Ready desk.old table.old shelf.old }
    ensures { TellsOut (next_says result) (rewritten desk.old desk.new) (rewritten table.old table.new)
        (rewritten shelf.old shelf.new) (rewritten out.old out.new)
        (Call.next ticket.0 budget out.old) }
{
    let Some(p) = running::scan_of(desk, ticket) else {
        return Err(Refusal::NoScan);
    };
    Ok(go_on(desk, table, shelf, p, budget, out))
}

// The scan at p looks until a record is in hand, the budget is spent or the place is T + R; then masks, card and version are written.
fn go_on(
    desk: &mut Desk,
    table: &mut [u8],
    shelf: &mut [u8],
    p: Position,
    budget: u32,
    out: &mut Version,
) -> Draw
    requires { Ready desk.old table.old shelf.old × Runs desk.old p }
    ensures { told (next_tells result) (store_of desk.new table.new shelf.new) out.new
        ≡ walk (store_of desk.old table.old shelf.old) p budget 0 out.old }
{
    let card = desk::card_at(desk, p);
    let masks = desk::masks_at(desk);
    let scan = Scan {
        position: p,
        card,
        masks,
    };
    let walked = looks::walk::seek(masks.stable, table, shelf, p, card.place as usize, budget);
    let looks = walked.looks;
    let left = walked.left;
    match walked.seen {
        Seen::Record => {
            settle::hand_out(desk, table, shelf, scan, looks, out);
            Draw::InHand { looks, left }
        }
        Seen::Spent => {
            settle::move_on(desk, table, scan, looks);
            Draw::Paused { looks }
        }
        Seen::End => {
            settle::finish(desk, table, scan, looks);
            Draw::Finished {
                looks,
                left,
                handed: card.handed,
            }
        }
    }
}
