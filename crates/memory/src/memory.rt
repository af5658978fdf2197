// What every memory does, said of its meaning alone.
ghost use Rattle.std.specs.Prelude.{◌≡◌};
ghost use Rattle.memory.specs.Cell.{on_read, on_write};
ghost use Rattle.memory.specs.Memory.{Meaning, written};

use crate::cell::Cell;
use refusal::fault::Fault;

pub trait Memory {
    // The number of this kind of memory, which its own refusals carry.
    const PART: u8;

    ghost means: { Self → Meaning };

    fn ask(&self, address: u32) -> Cell
        ensures { result ≡ means self.now address };

    fn read(&self, address: u32) -> Result<u8, Fault>
        ensures { result ≡ on_read (means self.now address) }
    {
        self.ask(address).on_read()
    }

    fn write(&mut self, address: u32, byte: u8) -> Result<(), Fault>
        ensures answer { result ≡ on_write (means self.old address) }
        ensures after { means self.new ≡ written (means self.old) address byte };
}
