// A mailbox: 64 bytes of its own at a base, zero when made, all of them writable.
ghost use Rattle.std.specs.Prelude.{◌≡◌, replicate};
ghost use Rattle.banks.specs.Mailbox.{mailbox_meaning, boxed};

use crate::ram;
use memory::cell::Cell;
use memory::memory::Memory;
use refusal::fault::Fault;

#[derive(Drop)]
pub struct Mailbox {
    base: u32,
    bytes: [u8; 64],
}

impl Mailbox {
    pub fn new(base: u32) -> Mailbox
        ensures { mailbox_meaning result ≡ boxed base (replicate 64 0) }
    {
        Mailbox {
            base,
            bytes: [0; 64],
        }
    }
}

impl Memory for Mailbox {
    const PART: u8 = 3;

    ghost means = { mailbox_meaning };

    fn ask(&self, address: u32) -> Cell {
        ram::ask(self.base, &self.bytes, Self::PART, address)
    }

    fn write(&mut self, address: u32, byte: u8) -> Result<(), Fault> {
        ram::write(self.base, &mut self.bytes, Self::PART, address, byte)
    }
}
