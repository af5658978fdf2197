// One step.
ghost use Rattle.std.specs.Prelude.{◌≡◌, ◌+◌, ◌%◌, ◌^◌, ◌<◌, ◌≤◌};
ghost use Rattle.cpu.specs.Account.{Ends};
ghost use Rattle.cpu.specs.Step.{core_state, step_of};

use crate::processor::Core;
use memory::memory::Memory;
use refusal::refusal::Refusal;

impl Core {
    // Fetches, decodes and obeys one instruction; refused, it changes nothing.
    // The proof opens `step_of`, which is closed to proofs about runs.
    #[tactic(auto, unfolding(crate::specs::Step::step_of))]
    pub fn step<M: Memory>(&mut self, code: &[u8], memory: &mut M) -> Result<(), Refusal>
        ensures { Ends (step_of code.now (core_state self.old (M.means memory.old))) (core_state self.old (M.means memory.old)) result (core_state self.new (M.means memory.new)) }
    {
        if code.len() != self.length {
            return Err(Refusal::InvalidArgument);
        }
        let (instruction, next) = self.fetch(code)?;
        let pc = self.pc;
        self.pc = self
            .registers
            .obey(instruction, pc, next, memory)
            .map_err(|trap| trap.at(pc))?;
        Ok(())
    }
}
