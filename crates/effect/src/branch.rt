// What a branch does.
ghost use Rattle.std.specs.Prelude.{◌≡◌};
ghost use Rattle.effect.specs.Effect.{file, called, goes_to};

use crate::registers::Registers;
use alu::shifts::target;
use isa::operation::Branch;

impl Registers {
    // Takes the branch at `pc` or not, and answers the next program counter.
    pub fn branch(&mut self, branch: Branch, pc: u32, halfwords: i32, next: u32) -> u32
        ensures { (result ≡ goes_to branch pc halfwords next self.old.carry) × (self.new ≡ file (called branch next self.old.words) self.old.carry) }
    {
        let is_taken = match branch {
            Branch::Br | Branch::Bsr => true,
            Branch::Bt => self.carry,
            Branch::Bf => !self.carry,
        };
        if matches!(branch, Branch::Bsr) {
            self.set(15, next);
        }
        if is_taken {
            target(pc, halfwords)
        } else {
            next
        }
    }
}
