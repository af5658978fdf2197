// What a run answers.
use cpu::ran::Ran;
use std::fmt;

#[derive(Clone, Copy)]
pub(crate) struct Told(pub(crate) Ran);

impl fmt::Display for Told {
    fn fmt<W: fmt::Write>(&self, f: &mut fmt::Formatter<W>) -> fmt::Result {
        let Ran { steps, refusal } = self.0;
        match refusal {
            Some(refusal) => {
                let number = refusal.number();
                let pc = refusal.place().pc;
                write!(f, "{steps} steps, refused by {number}, PC {pc:08X}")
            }
            None => write!(f, "{steps} steps"),
        }
    }
}
