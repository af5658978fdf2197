// The registers and the memory of a case.
use crate::map::Map;
use effect::registers::Registers;
use memory::memory::Memory;

#[derive(Drop)]
pub(crate) struct State {
    pub(crate) registers: Registers,
    pub(crate) memory: Map,
}

impl State {
    // The registers and the carry are the same, and so are all bytes that there are, and some addresses around them.
    pub(crate) fn is_like(&self, other: &State) -> bool {
        self.registers == other.registers
            && (0xf0..0x120).all(|address| self.memory.ask(address) == other.memory.ask(address))
    }
}
