// A memory that its owner keeps, written through a loan.
ghost use Rattle.std.specs.Prelude.{◌≡◌};
ghost use Rattle.memory.specs.Cell.{on_write};
ghost use Rattle.memory.specs.Memory.{written};

use layers::lent::Lent;
use memory::memory::Memory;
use refusal::fault::Fault;

// Writes through a loan; the owner's memory is then as if it had been written itself.
pub fn write_through<M: Memory>(owner: &mut M, address: u32, byte: u8) -> Result<(), Fault>
    ensures answer { result ≡ on_write (M.means owner.old address) }
    ensures after { M.means owner.new ≡ written (M.means owner.old) address byte }
{
    let mut lent = Lent(owner);
    lent.write(address, byte)
}
