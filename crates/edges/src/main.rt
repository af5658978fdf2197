// Does every operation on edge values, and compares what comes of it with what each case states. The cases on
// standard input are made by tests/edges.py from the manual; it says how a line is read.
#![tactic(auto)]

mod case;
mod expected;
mod instruction;
mod map;
mod state;
mod words;

use crate::case::agrees;
use crate::map::map;

fn main(rt: HostRuntime) -> anyhow::Result<()> {
    let mut same: u32 = 0;
    let mut wrong: u32 = 0;
    for read in rt.lines(rt.alloc()) {
        let line = read?;
        let memory = map(rt.alloc())?;
        let other = map(rt.alloc())?;
        if agrees(line.as_str(), memory, other).is_some() {
            same = same.saturating_add(1);
        } else {
            wrong = wrong.saturating_add(1);
            println!(rt; "does not agree: {line}")?;
        }
    }
    println!(rt; "{same} cases agree")?;
    println!(rt; "{wrong} do not")?;
    Ok(())
}
