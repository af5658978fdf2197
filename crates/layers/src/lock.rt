// A lock: a range of any memory made read-only.
ghost use Rattle.std.specs.Prelude.{◌≡◌};
ghost use Rattle.layers.specs.Lock.{lock_meaning, locked_range};
ghost use Rattle.memory.specs.Span.{in_range};

use memory::cell::Cell;
use memory::memory::Memory;
use memory::span::offset;
use refusal::fault::Fault;

// The lock's part number, where proofs see it whatever memory lies below.
const LOCK_PART: u8 = 4;

#[derive(Drop)]
pub struct Lock<M> {
    below: M,
    start: u32,
    length: usize,
}

impl<M: Memory> Lock<M> {
    // Locks the `length` bytes from `start` on.
    pub fn new(below: M, start: u32, length: usize) -> Lock<M>
        ensures { lock_meaning M.means result ≡ locked_range start length (M.means below) }
    {
        Lock {
            below,
            start,
            length,
        }
    }

    fn covers(&self, address: u32) -> bool
        ensures { result ≡ in_range self.now.start self.now.length address }
    {
        offset(self.start, self.length, address).is_some()
    }
}

impl<M: Memory> Memory for Lock<M> {
    const PART: u8 = LOCK_PART;

    ghost means = { lock_meaning M.Memory.means };

    fn ask(&self, address: u32) -> Cell {
        let part = LOCK_PART;
        match self.below.ask(address) {
            Cell::ReadOnly { byte, .. } | Cell::Writable { byte } if self.covers(address) => {
                Cell::ReadOnly { byte, part }
            }
            cell => cell,
        }
    }

    fn write(&mut self, address: u32, byte: u8) -> Result<(), Fault> {
        if self.covers(address) {
            self.ask(address).on_write()
        } else {
            self.below.write(address, byte)
        }
    }
}
