// A bank: bytes of its own at a base, all of them writable.
ghost use Rattle.std.specs.Prelude.{◌≡◌};
ghost use Rattle.banks.specs.Bank.{bank_meaning, banked};

use crate::ram;
use memory::cell::Cell;
use memory::memory::Memory;
use refusal::fault::Fault;

#[derive(Drop)]
pub struct Bank {
    base: u32,
    bytes: Vec<u8>,
}

impl Bank {
    pub fn new(base: u32, bytes: Vec<u8>) -> Bank
        ensures meaning { bank_meaning result ≡ banked base bytes.items }
        ensures bytes { result.bytes ≡ bytes }
    {
        Bank { base, bytes }
    }

    // Takes the bank apart, and gives its bytes back.
    pub fn into_bytes(self) -> Vec<u8>
        ensures meaning { bank_meaning self ≡ banked self.base result.items }
        ensures bytes { result ≡ self.bytes }
    {
        let Bank { base: _, bytes } = self;
        bytes
    }
}

impl Memory for Bank {
    const PART: u8 = 1;

    ghost means = { bank_meaning };

    fn ask(&self, address: u32) -> Cell {
        ram::ask(self.base, self.bytes.as_slice(), Self::PART, address)
    }

    fn write(&mut self, address: u32, byte: u8) -> Result<(), Fault> {
        ram::write(
            self.base,
            self.bytes.as_mut_slice(),
            Self::PART,
            address,
            byte,
        )
    }
}
