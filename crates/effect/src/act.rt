// What an operation does.
ghost use Rattle.std.specs.Prelude.{◌≡◌, ◌+◌, ◌%◌, ◌^◌, ◌<◌};
ghost use Rattle.effect.specs.Effect.{state, outcome, effect_on, accesses, answered, Ends, Even};

use crate::access::*;
use crate::registers::Registers;
use crate::trap::Trap;
use alu::results::*;
use alu::shifts::even;
use isa::operation::*;
use memory::memory::Memory;

impl Registers {
    // Does the operation, and answers the next program counter.
    // The proof opens `effect`, which is closed to proofs that need not look inside.
    #[tactic(auto, unfolding(crate::specs::Effect::effect))]
    pub fn act<M: Memory>(
        &mut self,
        operation: Operation,
        next: u32,
        memory: &mut M,
    ) -> Result<u32, Trap>
        ensures done { Ends (outcome next (state self.old (M.means memory.old)) (effect_on operation next (state self.old (M.means memory.old)))) (state self.old (M.means memory.old)) result (state self.new (M.means memory.new)) }
        ensures even { next % 2 ≡ 0 → Even result }
    {
        match operation {
            Operation::Register { op, z, x, y } => {
                let (value, carry) = register_result(op, self.get(x), self.get(y), self.carry);
                self.set(z, value);
                self.carry = carry;
                Ok(next)
            }
            Operation::Immediate { op, z, x, n } => {
                self.set(z, immediate_result(op, self.get(x), n));
                Ok(next)
            }
            Operation::Test { op, x, n } => {
                self.carry = test_result(op, self.get(x), n);
                Ok(next)
            }
            Operation::Compare { op, x, y } => {
                self.carry = compare_result(op, self.get(x), self.get(y));
                Ok(next)
            }
            Operation::Access { op, z, x, n } => {
                let address = self.get(x).wrapping_add(n);
                self.transfer(op, z, address, memory)?;
                Ok(next)
            }
            Operation::Move { z, x } => {
                self.set(z, self.get(x));
                Ok(next)
            }
            Operation::Constant { op, z, n } => {
                self.set(z, constant_result(op, n));
                Ok(next)
            }
            Operation::Jump { op, x } => {
                let target = even(self.get(x));
                if matches!(op, JumpOp::Jsr) {
                    self.set(15, next);
                }
                Ok(target)
            }
            Operation::Bkpt => Err(Trap::Breakpoint),
        }
    }

    // A load or a store: the one place that touches the memory.
    fn transfer<M: Memory>(
        &mut self,
        op: AccessOp,
        z: u8,
        at: u32,
        memory: &mut M,
    ) -> Result<(), Trap>
        ensures { Ends (outcome 0 (state self.old (M.means memory.old)) (accesses op z at self.old.words self.old.carry (M.means memory.old))) (state self.old (M.means memory.old)) (answered result) (state self.new (M.means memory.new)) }
    {
        if is_store(op) {
            store(memory, width_of(op), at, self.get(z))
        } else {
            let value = load(memory, width_of(op), at)?;
            self.set(z, widen(op, value));
            Ok(())
        }
    }
}
