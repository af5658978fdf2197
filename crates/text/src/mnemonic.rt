// The names of operations and branches.
ghost use Rattle.std.specs.Prelude.{◌≡◌};
ghost use Rattle.text.specs.Mnemonics.{mnemonic};

use isa::operation::*;

#[derive(Clone, Copy, Debug, PartialEq, Eq)]
pub enum Mnemonic {
    Register(RegisterOp),
    Immediate(ImmediateOp),
    Test(TestOp),
    Compare(CompareOp),
    Access(AccessOp),
    Move,
    Constant(ConstantOp),
    Jump(JumpOp),
    Bkpt,
    Relative(Branch),
}

impl From<Operation> for Mnemonic {
    ghost from_gives = { λ operation result. result ≡ mnemonic operation };

    fn from(operation: Operation) -> Mnemonic {
        match operation {
            Operation::Register { op, .. } => Mnemonic::Register(op),
            Operation::Immediate { op, .. } => Mnemonic::Immediate(op),
            Operation::Test { op, .. } => Mnemonic::Test(op),
            Operation::Compare { op, .. } => Mnemonic::Compare(op),
            Operation::Access { op, .. } => Mnemonic::Access(op),
            Operation::Move { .. } => Mnemonic::Move,
            Operation::Constant { op, .. } => Mnemonic::Constant(op),
            Operation::Jump { op, .. } => Mnemonic::Jump(op),
            Operation::Bkpt => Mnemonic::Bkpt,
        }
    }
}
