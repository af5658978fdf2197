// A core over an image and a memory, stepped with a line for each step.
use crate::changes::{Changes, Snapshot};
use banks::bank::Bank;
use banks::mailbox::Mailbox;
use cpu::processor::Core;
use cpu::ran::Ran;
use decoder::bytes::decode;
use isa::operation::{AccessOp, Instruction, Operation};
use layers::split::Split;
use listing::line::Line;
use memory::memory::Memory;
use memory::span::offset;
use std::alloc::{AllocError, Global};

pub(crate) type Board = Split<Bank, Mailbox>;

#[derive(Drop)]
pub(crate) struct Machine<'a> {
    pub(crate) core: Core,
    pub(crate) code: &'a [u8],
    pub(crate) memory: Board,
}

impl<'a> Machine<'a> {
    // The instruction at the PC.
    fn line(&self) -> Line<'a> {
        let address = self.core.pc();
        let code = offset(self.core.base(), self.code.len(), address)
            .and_then(|at| self.code.get(at..))
            .unwrap_or_default();
        Line { address, code }
    }

    // The addresses of the bytes that the instruction at the PC stores.
    fn stored(&self, heap: Global) -> Result<Vec<u32>, AllocError> {
        let instruction = decode(self.line().code).map(|decoded| decoded.instruction);
        let Ok(Instruction::Plain(Operation::Access { op, x, n, .. })) = instruction else {
            return Ok(Vec::new(heap));
        };
        let size = match op {
            AccessOp::StB => 1,
            AccessOp::StH => 2,
            AccessOp::StW => 4,
            _ => return Ok(Vec::new(heap)),
        };
        let first = self.core.registers().get(x).wrapping_add(n);
        (0..size).map(|i| first.wrapping_add(i)).collect(heap)
    }

    fn snapshot(&self, heap: Global, addresses: &[u32]) -> Result<Snapshot, AllocError> {
        let bytes = addresses
            .iter()
            .map(|&address| (address, self.memory.read(address).ok()))
            .collect(heap)?;
        Ok(Snapshot {
            registers: self.core.registers(),
            bytes,
        })
    }

    // Makes at most `budget` steps, and prints each with what it changed.
    pub(crate) fn run(&mut self, rt: &HostRuntime, budget: u32) -> anyhow::Result<Ran> {
        for steps in 0..budget {
            let line = self.line();
            let stored = self.stored(rt.alloc())?;
            let was = self.snapshot(rt.alloc(), stored.as_slice())?;
            if let Err(refusal) = self.core.step(self.code, &mut self.memory) {
                return Ok(Ran::stopped(steps, refusal));
            }
            let is = self.snapshot(rt.alloc(), stored.as_slice())?;
            let changes = Changes { was: &was, is: &is };
            println!(rt; "{line}{changes}")?;
        }
        Ok(Ran::completed(budget))
    }
}
