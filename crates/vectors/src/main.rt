// Compares the forms that we use with those of the GNU assembler (binutils 2.40, ck803).
//
// A line of standard input is OURS GNU NAME A B C: our form or `none`, GNU's form, and an operation as its name
// and the numbers that are written after it, 0 where there are fewer than three.
#![tactic(auto)]

mod operation;
mod verdict;

use crate::verdict::{Verdict, judge};

fn main(rt: HostRuntime) -> anyhow::Result<()> {
    let mut same: u32 = 0;
    let mut other: u32 = 0;
    let mut outside: u32 = 0;
    let mut wrong: u32 = 0;
    for read in rt.lines(rt.alloc()) {
        let line = read?;
        match judge(line.as_str()) {
            Some(Verdict::Same) => same = same.saturating_add(1),
            Some(Verdict::OtherForm) => other = other.saturating_add(1),
            Some(Verdict::OutsideTable) => outside = outside.saturating_add(1),
            None => {
                wrong = wrong.saturating_add(1);
                println!(rt; "does not agree: {line}")?;
            }
        }
    }
    println!(rt; "{same} forms are the GNU assembler's")?;
    println!(rt; "{other} differ as stated, and GNU's form decodes to the same act")?;
    println!(rt; "{outside} differ as stated, and GNU's form is not in our table")?;
    println!(rt; "{wrong} do not agree")?;
    Ok(())
}
