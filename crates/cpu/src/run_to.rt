// A run up to an address.
ghost use Rattle.std.specs.Prelude.{◌≡◌};
ghost use Rattle.cpu.specs.Account.{ran};
ghost use Rattle.cpu.specs.Patch.{run_to_of};
ghost use Rattle.cpu.specs.Step.{core_state};

use crate::processor::Core;
use crate::ran::Ran;
use memory::memory::Memory;

impl Core {
    // Runs with a breakpoint at an address, which is taken out again.
    pub fn run_to<M: Memory>(
        &mut self,
        code: &mut [u8],
        memory: &mut M,
        address: u32,
        budget: u32,
    ) -> Ran
        ensures code { code.new ≡ code.old }
        ensures runs { run_to_of code.old address budget (core_state self.old (M.means memory.old)) ≡ ran result (core_state self.new (M.means memory.new)) }
    {
        let patch = self.patch(code, address);
        match patch.ready() {
            Ok(()) => self.run(patch.bytes(), memory, budget),
            Err(refusal) => Ran::stopped(0, refusal),
        }
    }
}
