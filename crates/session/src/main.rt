// Document 01's own session and its edges, call by call, as standard input has them; what is written is compared with the
// document's figures.
#![tactic(auto)]

use crate::step::Step;
use crate::store::Store;
use std::io;
use std::io::Read;

mod answer;
mod call;
mod line;
mod show;
mod step;
mod store;

// How many bytes of a script are read.
const SCRIPT_BYTES: u64 = 4096;

// One line after another, on buffers that are all there from the first.
fn play(rt: &impl Print, script: &[u8]) -> io::Result<()> {
    let mut store = Store::new();
    for line in script.split_inclusive(|b| *b == b'\n') {
        let line = line.strip_suffix(b"\n").unwrap_or(line);
        match Step::parse(line) {
            Some(step) => store.run(rt, step)?,
            None => println!(rt; "no such step")?,
        }
    }
    Ok(())
}

fn main(rt: HostRuntime) -> io::Result<()> {
    let mut script = Vec::new(rt.alloc());
    rt.reader().take(SCRIPT_BYTES).read_to_end(&mut script)?;
    play(&rt, &script)
}
