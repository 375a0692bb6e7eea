// A small store, and how many bytes of its table and shelf are lent.
ghost use Rattle.std.specs.Prelude.{◌≤◌};

use crate::dice::Dice;
use inarumpit::calls;
use rules::{Body, Desk, NextAnswer, RecordNumber, Ticket, Version};

// Lengths and no slices: a store's size is rolled, and less is lent of buffers that have all their bytes.
#[derive(Clone, Copy, Debug, PartialEq, Eq)]
pub struct Store {
    pub desk: Desk,
    pub table: [u8; 512],
    pub shelf: [u8; 1024],
    table_lent: usize,
    shelf_lent: usize,
    ghost table_fits: { table_lent ≤ 512 },
    ghost shelf_fits: { shelf_lent ≤ 1024 },
}

impl Store {
    // One that is open: T 1 to 8, R 1 to 16, N 1 to 4.
    pub fn opened(dice: &mut Dice) -> Self {
        let mut store = Store {
            desk: [0; 1088],
            table: [0; 512],
            shelf: [0; 1024],
            table_lent: 64 + dice.roll(8) as usize * 64,
            shelf_lent: 64 + dice.roll(16) as usize * 64,
        };
        let n = 1 + dice.roll(4);
        let _ = store.lend(|desk, table, shelf| calls::open(desk, table, shelf, n));
        store
    }

    // A call on the parts that are lent.
    fn lend<T, F: FnOnce(&mut Desk, &mut [u8], &mut [u8]) -> T>(&mut self, call: F) -> T
        requires { F.IsAlwaysCallable call }
    {
        let t = self.table_lent;
        let r = self.shelf_lent;
        let table = &mut self.table[..];
        let shelf = &mut self.shelf[..];
        call(&mut self.desk, &mut table[..t], &mut shelf[..r])
    }

    pub fn insert(&mut self, k: RecordNumber, body: &Body) {
        let _ = self.lend(|desk, table, shelf| calls::insert(desk, table, shelf, k, body));
    }

    pub fn modify(&mut self, k: RecordNumber, body: &Body) {
        let _ = self.lend(|desk, table, shelf| calls::modify(desk, table, shelf, k, body));
    }

    pub fn delete(&mut self, k: RecordNumber) {
        let _ = self.lend(|desk, table, shelf| calls::delete(desk, table, shelf, k));
    }

    pub fn begin(&mut self) {
        let _ = self.lend(|desk, table, shelf| calls::begin(desk, table, shelf));
    }

    pub fn next(&mut self, ticket: Ticket, budget: u32, out: &mut Version) -> NextAnswer {
        self.lend(|desk, table, shelf| calls::next(desk, table, shelf, ticket, budget, out))
    }

    pub fn peek(&self, ticket: Ticket) -> &[u8] {
        let table = &self.table[..self.table_lent];
        let shelf = &self.shelf[..self.shelf_lent];
        calls::peek(&self.desk, table, shelf, ticket)
    }

    pub fn is_sound(&self) -> bool {
        let table = &self.table[..self.table_lent];
        let shelf = &self.shelf[..self.shelf_lent];
        calls::tally(&self.desk, table, shelf).is_ok()
    }
}
