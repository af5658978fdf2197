// A split: two memories, the first below an address and the second from it on.
ghost use Rattle.std.specs.Prelude.{◌≡◌, nat_lt};
ghost use Rattle.layers.specs.Split.{split_meaning, split_at};

use memory::cell::Cell;
use memory::memory::Memory;
use refusal::fault::Fault;

#[derive(Drop)]
pub struct Split<F, S> {
    first: F,
    second: S,
    border: u32,
}

impl<F: Memory, S: Memory> Split<F, S> {
    pub fn new(first: F, second: S, border: u32) -> Split<F, S>
        ensures { split_meaning F.Memory.means S.Memory.means result ≡ split_at border (F.Memory.means first) (S.Memory.means second) }
    {
        Split {
            first,
            second,
            border,
        }
    }

    fn in_first(&self, address: u32) -> bool
        ensures { result ≡ nat_lt address self.now.border }
    {
        address < self.border
    }
}

impl<F: Memory, S: Memory> Memory for Split<F, S> {
    const PART: u8 = 5;

    ghost means = { split_meaning F.Memory.means S.Memory.means };

    fn ask(&self, address: u32) -> Cell {
        if self.in_first(address) {
            self.first.ask(address)
        } else {
            self.second.ask(address)
        }
    }

    fn write(&mut self, address: u32, byte: u8) -> Result<(), Fault> {
        if self.in_first(address) {
            self.first.write(address, byte)
        } else {
            self.second.write(address, byte)
        }
    }
}
