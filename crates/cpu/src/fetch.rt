// The instruction at the PC.
ghost use Rattle.std.specs.Prelude.{◌≡◌, ◌+◌, ◌-◌, ◌%◌, ◌^◌, ◌<◌, ◌≤◌, length};
ghost use Rattle.cpu.specs.Step.{fetched, NextEven};

use crate::processor::Core;
use decoder::bytes::decode;
use isa::operation::Instruction;
use memory::span::offset;
use refusal::refusal::Refusal;

impl Core {
    // The instruction at the PC, and the address after it.
    // The lemmas: outside the code nothing is fetched, and an instruction takes two or four bytes.
    #[tactic(auto, using(crate::proofs::Fetching::fetching))]
    pub(crate) fn fetch(&self, code: &[u8]) -> Result<(Instruction, u32), Refusal>
        ensures value { result ≡ fetched self.now.base self.now.pc code.now }
        ensures even { NextEven result }
    {
        let pc = self.pc;
        let at = offset(self.base, code.len(), pc).ok_or(Refusal::NoInstruction { pc })?;
        match decode(&code[at..]) {
            Ok(found) => Ok((found.instruction, pc.wrapping_add(found.length as u32))),
            Err(Refusal::UnknownInstruction { .. }) => Err(Refusal::UnknownInstruction { pc }),
            Err(_) => Err(Refusal::NoInstruction { pc }),
        }
    }
}
