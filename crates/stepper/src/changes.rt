// What a step changed.
use effect::registers::Registers;
use std::fmt;

// The registers, and the bytes of the memory at some addresses, where there are any.
#[derive(Drop)]
pub(crate) struct Snapshot {
    pub(crate) registers: Registers,
    pub(crate) bytes: Vec<(u32, Option<u8>)>,
}

// What is not what it was.
#[derive(Clone, Copy)]
pub(crate) struct Changes<'a> {
    pub(crate) was: &'a Snapshot,
    pub(crate) is: &'a Snapshot,
}

impl fmt::Display for Changes<'_> {
    fn fmt<W: fmt::Write>(&self, f: &mut fmt::Formatter<W>) -> fmt::Result {
        let Changes { was, is } = *self;
        let words = was.registers.words.iter().zip(&is.registers.words);
        for (x, (old, new)) in words.enumerate() {
            if old != new {
                write!(f, "  r{x} {old:08X} -> {new:08X}")?;
            }
        }
        let (old, new) = (was.registers.carry, is.registers.carry);
        if old != new {
            let (old, new) = (u8::from(old), u8::from(new));
            write!(f, "  C {old} -> {new}")?;
        }
        for ((address, old), (_, new)) in was.bytes.iter().zip(&is.bytes) {
            if let (Some(old), Some(new)) = (old, new)
                && old != new
            {
                write!(f, "  ({address:08X}) {old:02X} -> {new:02X}")?;
            }
        }
        Ok(())
    }
}
