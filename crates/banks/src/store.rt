// A store: bytes of its own at a base, all of them read-only.
ghost use Rattle.std.specs.Prelude.{◌≡◌};
ghost use Rattle.banks.specs.Store.{store_meaning, stored};

use memory::cell::Cell;
use memory::memory::Memory;
use memory::span::offset;
use refusal::fault::Fault;

#[derive(Drop)]
pub struct Store {
    base: u32,
    bytes: Vec<u8>,
}

impl Store {
    pub fn new(base: u32, bytes: Vec<u8>) -> Store
        ensures { store_meaning result ≡ stored base bytes.items }
    {
        Store { base, bytes }
    }
}

impl Memory for Store {
    const PART: u8 = 2;

    ghost means = { store_meaning };

    fn ask(&self, address: u32) -> Cell {
        match offset(self.base, self.bytes.len(), address) {
            Some(i) => Cell::ReadOnly {
                byte: self.bytes[i],
                part: Self::PART,
            },
            None => Cell::Absent { part: Self::PART },
        }
    }

    fn write(&mut self, address: u32, _byte: u8) -> Result<(), Fault> {
        self.ask(address).on_write()
    }
}
