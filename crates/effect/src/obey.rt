// What an instruction does.
ghost use Rattle.std.specs.Prelude.{◌≡◌, ◌%◌};
ghost use Rattle.effect.specs.Effect.{state, obeyed_at, Ends, Even};

use crate::registers::Registers;
use crate::trap::Trap;
use isa::operation::Instruction;
use memory::memory::Memory;

impl Registers {
    // Obeys the instruction at `pc`, and answers the next program counter.
    pub fn obey<M: Memory>(
        &mut self,
        instruction: Instruction,
        pc: u32,
        next: u32,
        memory: &mut M,
    ) -> Result<u32, Trap>
        ensures done { Ends (obeyed_at instruction pc next (state self.old (M.means memory.old))) (state self.old (M.means memory.old)) result (state self.new (M.means memory.new)) }
        ensures even { pc % 2 ≡ 0 → next % 2 ≡ 0 → Even result }
    {
        match instruction {
            Instruction::Plain(operation) => self.act(operation, next, memory),
            Instruction::Relative { branch, halfwords } => {
                Ok(self.branch(branch, pc, halfwords, next))
            }
        }
    }
}
