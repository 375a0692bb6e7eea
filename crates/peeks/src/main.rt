// Peek against next with unbounded budget on copies, over seeded sequences of calls on small stores.
#![tactic(auto)]

use crate::seen::Seen;
use std::io;

mod compare;
mod dice;
mod hostile;
mod seen;
mod sequence;
mod store;
mod turn;

const SEQUENCES: u32 = 400;

fn main(rt: HostRuntime) -> io::Result<()> {
    let mut seen = Seen::default();
    for number in 0..SEQUENCES {
        sequence::run(&rt, number, &mut seen)?;
    }
    println!(rt; "{SEQUENCES} sequences, {seen}")
}
