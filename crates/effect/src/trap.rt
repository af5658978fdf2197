// Why an operation is refused, wherever it stands.
ghost use Rattle.std.specs.Prelude.{◌≡◌};
ghost use Rattle.effect.specs.Trap.{trapped_at};

use refusal::fault::Fault;
use refusal::refusal::Refusal;

#[derive(Clone, Copy, Debug, PartialEq, Eq)]
pub enum Trap {
    Breakpoint,
    // the address is no multiple of the access's width
    Misaligned { address: u32 },
    // a memory refused the byte at the address
    Faulted { address: u32, fault: Fault },
}

impl Trap {
    // The refusal of the instruction at `pc` that met the trap.
    pub fn at(self, pc: u32) -> Refusal
        ensures { result ≡ trapped_at pc self }
    {
        match self {
            Trap::Breakpoint => Refusal::Breakpoint { pc },
            Trap::Misaligned { address } => Refusal::Misaligned { pc, address },
            Trap::Faulted { address, fault } => fault.at(pc, address),
        }
    }
}
