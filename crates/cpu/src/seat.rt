// Making a core, and what it holds.
ghost use Rattle.std.specs.Prelude.{◌≡◌};
ghost use Rattle.cpu.specs.Seat.{Seats};
ghost use Rattle.effect.specs.Effect.{file};

use crate::processor::Core;
use effect::registers::Registers;
use refusal::refusal::Refusal;

impl Core {
    // A core at `start`, over an image of the code's length at `base`.
    pub fn seat(
        words: [u32; 32],
        carry: bool,
        base: u32,
        code: &[u8],
        start: u32,
    ) -> Result<Core, Refusal>
        ensures { Seats (file words carry) base code.now start result }
    {
        let length = code.len();
        if base % 2 != 0 || start % 2 != 0 || length > 131_072 {
            return Err(Refusal::InvalidArgument);
        }
        if base as usize + length >= 0x1_0000_0000 {
            return Err(Refusal::NoRoom);
        }
        let registers = Registers { words, carry };
        Ok(Core {
            registers,
            pc: start,
            base,
            length,
        })
    }

    // The registers and the carry.
    pub fn registers(&self) -> Registers
        ensures { result ≡ self.now.registers }
    {
        self.registers
    }

    pub fn pc(&self) -> u32
        ensures { result ≡ self.now.pc }
    {
        self.pc
    }

    pub fn base(&self) -> u32
        ensures { result ≡ self.now.base }
    {
        self.base
    }

    pub fn length(&self) -> usize
        ensures { result ≡ self.now.length }
    {
        self.length
    }
}
