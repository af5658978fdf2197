// A memory that its owner lends by `&mut`: a memory too.
ghost use Rattle.std.specs.Prelude.{◌≡◌};
ghost use Rattle.memory.specs.Cell.{on_write};
ghost use Rattle.memory.specs.Memory.{written};

use memory::cell::Cell;
use memory::memory::Memory;
use refusal::fault::Fault;

#[derive(Drop)]
pub struct Lent<'a, M>(pub &'a mut M);

impl<M: Memory> Memory for Lent<'_, M> {
    const PART: u8 = M::PART;

    ghost means = { λ lent. M.Memory.means lent.0.now };

    fn ask(&self, address: u32) -> Cell {
        self.0.ask(address)
    }

    fn write(&mut self, address: u32, byte: u8) -> Result<(), Fault>
        ensures answer { result ≡ on_write (M.Memory.means self.old.0.now address) }
        ensures after { M.Memory.means self.new.0.now ≡ written (M.Memory.means self.old.0.now) address byte }
        ensures lender { self.new.0.ghost_name ≡ self.old.0.ghost_name }
    {
        self.0.write(address, byte)
    }
}
