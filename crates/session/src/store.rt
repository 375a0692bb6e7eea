// Desk, table and shelf, and each step on what is lent of them.
use crate::show;
use crate::step::{Lengths, Step};
use inarumpit::calls;
use rules::{Desk, Ticket};
use std::io;

mod told;

#[derive(Clone, Copy, Debug, PartialEq, Eq)]
pub struct Store {
    desk: Desk,
    table: [u8; 256],
    shelf: [u8; 512],
    lent: Lengths,
}

impl Store {
    pub fn new() -> Self {
        Store {
            desk: [0; 1088],
            table: [0; 256],
            shelf: [0; 512],
            lent: Lengths::default(),
        }
    }

    pub fn run(&mut self, rt: &impl Print, step: Step) -> io::Result<()> {
        match step {
            Step::Alter { at, byte } => {
                if let Some(altered) = self.desk.get_mut(at) {
                    *altered = byte;
                }
            }
            Step::Fill { desk, table, shelf } => {
                self.desk = [desk; 1088];
                self.table = [table; 256];
                self.shelf = [shelf; 512];
            }
            Step::Lend(lengths) => self.lent = lengths,
            Step::Returned { ticket, budget } => {
                let back = self.returned(ticket, budget);
                println!(rt; "C return value {back}")?;
            }
            Step::Show => self.show(rt)?,
            // Written raw, as the script has it: its bytes need be no text.
            Step::Write(text) => {
                rt.write_all(text)?;
                println!(rt; "")?;
            }
            Step::Call(call) => self.call(rt, call)?,
        }
        Ok(())
    }

    // What the C host is returned by next, on a copy of the store.
    fn returned(mut self, ticket: u32, budget: u32) -> u64 {
        packing::number(calls::next(
            &mut self.desk,
            &mut self.table,
            &mut self.shelf,
            Ticket(ticket),
            budget,
            &mut [0; 56],
        ))
    }

    // What is lent of table and shelf, and the desk, as they stand.
    fn show(&self, rt: &impl Print) -> io::Result<()> {
        let table = &self.table[..self.lent.table.min(256)];
        let shelf = &self.shelf[..self.lent.shelf.min(512)];
        show::in_use(rt, "slot", "status", table)?;
        show::in_use(rt, "entry", "mask", shelf)?;
        show::masks(rt, &self.desk)?;
        show::cards(rt, &self.desk)
    }
}
