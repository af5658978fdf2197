// Steps up to a budget.
ghost use Rattle.std.specs.Prelude.{◌≡◌, ◌+◌, ◌%◌, ◌^◌, ◌<◌, ◌≤◌};
ghost use Rattle.cpu.specs.Account.{ran};
ghost use Rattle.cpu.specs.Step.{core_state, run_of};

use crate::processor::Core;
use crate::ran::Ran;
use memory::memory::Memory;
use refusal::refusal::Refusal;

impl Core {
    // Makes steps until one is refused, at most `budget`.
    pub fn run<M: Memory>(&mut self, code: &[u8], memory: &mut M, budget: u32) -> Ran
        ensures { run_of code.now budget (core_state self.old (M.means memory.old)) ≡ ran result (core_state self.new (M.means memory.new)) }
    {
        if code.len() != self.length {
            return Ran::stopped(0, Refusal::InvalidArgument);
        }
        for steps in 0..budget {
            if let Err(refusal) = self.step(code, memory) {
                return Ran::stopped(steps, refusal);
            }
        }
        Ran::completed(budget)
    }
}
