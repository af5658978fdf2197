// What a case states: the answer, and the registers and the memory after it.
use crate::state::State;
use crate::words::Words;
use effect::trap::Trap;
use memory::memory::Memory;
use refusal::fault::Fault;

impl State {
    // Writes the register that the words give.
    pub(crate) fn write_register(&mut self, words: &mut Words<'_>) -> Option<()> {
        let register = words.byte()?;
        self.registers.set(register, words.number()?);
        Some(())
    }

    // Writes the bytes that the words give, from the first one's address on.
    fn write_bytes(&mut self, words: &mut Words<'_>) -> Option<()> {
        let first = words.number()?;
        // offsets, since a range of addresses ends before the last one
        for (offset, word) in (0..).zip(words.rest()) {
            let byte = u8::from_str_radix(word, 16).ok()?;
            self.memory.write(first.wrapping_add(offset), byte).ok()?;
        }
        Some(())
    }

    // Makes the one change besides the carry and the PC, if there is any.
    fn change(&mut self, words: &mut Words<'_>) -> Option<()> {
        match words.word() {
            None => Some(()),
            Some("register") => self.write_register(words),
            Some("bytes") => self.write_bytes(words),
            Some(_) => None,
        }
    }

    // Makes of the state before a case what it should be after it, and gives the answer.
    pub(crate) fn expect(&mut self, words: &mut Words<'_>) -> Option<Result<u32, Trap>> {
        match words.word()? {
            "done" => {
                self.registers.carry = words.flag()?;
                let pc = words.number()?;
                self.change(words)?;
                Some(Ok(pc))
            }
            name => trap(name, words).map(Err),
        }
    }
}

fn trap(name: &str, words: &mut Words<'_>) -> Option<Trap> {
    match name {
        "breakpoint" => Some(Trap::Breakpoint),
        "misaligned" => Some(Trap::Misaligned {
            address: words.number()?,
        }),
        _ => Some(Trap::Faulted {
            address: words.number()?,
            fault: fault(name, words)?,
        }),
    }
}

fn fault(name: &str, words: &mut Words<'_>) -> Option<Fault> {
    match name {
        "absent" => Some(Fault::Absent {
            part: words.byte()?,
        }),
        "read-only" => Some(Fault::ReadOnly {
            part: words.byte()?,
        }),
        _ => None,
    }
}
