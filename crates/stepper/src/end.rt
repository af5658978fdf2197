// How the steps ended, in words.
use cpu::ran::Ran;
use refusal::refusal::Refusal;
use std::fmt;

#[derive(Clone, Copy)]
pub(crate) struct End(pub(crate) Ran);

fn words(refusal: Refusal) -> &'static str {
    match refusal {
        Refusal::InvalidArgument => "the code does not suit",
        Refusal::NoRoom => "the image reaches the last address",
        Refusal::NoInstruction { .. } => "no whole instruction there in the image",
        Refusal::UnknownInstruction { .. } => "an unknown instruction",
        Refusal::Breakpoint { .. } => "a breakpoint",
        Refusal::Misaligned { .. } => "an address that is not aligned",
        Refusal::Absent { .. } => "no byte at the address",
        Refusal::ReadOnly { .. } => "a byte that may not be written",
        _ => "refused",
    }
}

impl fmt::Display for End {
    fn fmt<W: fmt::Write>(&self, f: &mut fmt::Formatter<W>) -> fmt::Result {
        let Ran { steps, refusal } = self.0;
        write!(f, "{steps} steps")?;
        let Some(refusal) = refusal else {
            return Ok(());
        };
        let number = refusal.number();
        let what = words(refusal);
        let pc = refusal.place().pc;
        write!(f, ", then refused by {number}: {what}, PC {pc:08X}")?;
        match refusal {
            Refusal::Misaligned { address, .. } => write!(f, ", address {address:08X}"),
            Refusal::Absent { address, part, .. } | Refusal::ReadOnly { address, part, .. } => {
                write!(f, ", address {address:08X}, part {part}")
            }
            _ => Ok(()),
        }
    }
}
