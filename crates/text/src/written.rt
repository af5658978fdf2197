// Operations as they are written: a name, and numbers after it.
ghost use Rattle.std.specs.Prelude.{◌≡◌};
ghost use Rattle.text.specs.Written.{register, written};

use crate::mnemonic::Mnemonic;
use isa::operation::Operation;

// A register, by a number that fits one byte.
fn register(number: u32) -> Option<u8>
    ensures { result ≡ register number }
{
    u8::try_from(number).ok()
}

impl Mnemonic {
    // The operation of this name with the numbers that are written after it, in the order of z, x, y and n. What it has
    // no operand for does not count. None for a branch, and where a register's number does not fit.
    pub fn operation(self, numbers: [u32; 3]) -> Option<Operation>
        ensures { result ≡ written self numbers }
    {
        let [a, b, c] = numbers;
        let operation = match self {
            Mnemonic::Register(op) => Operation::Register {
                op,
                z: register(a)?,
                x: register(b)?,
                y: register(c)?,
            },
            Mnemonic::Immediate(op) => Operation::Immediate {
                op,
                z: register(a)?,
                x: register(b)?,
                n: c,
            },
            Mnemonic::Test(op) => Operation::Test {
                op,
                x: register(a)?,
                n: b,
            },
            Mnemonic::Compare(op) => Operation::Compare {
                op,
                x: register(a)?,
                y: register(b)?,
            },
            Mnemonic::Access(op) => Operation::Access {
                op,
                z: register(a)?,
                x: register(b)?,
                n: c,
            },
            Mnemonic::Move => Operation::Move {
                z: register(a)?,
                x: register(b)?,
            },
            Mnemonic::Constant(op) => Operation::Constant {
                op,
                z: register(a)?,
                n: b,
            },
            Mnemonic::Jump(op) => Operation::Jump {
                op,
                x: register(a)?,
            },
            Mnemonic::Bkpt => Operation::Bkpt,
            Mnemonic::Relative(_) => return None,
        };
        Some(operation)
    }
}
