// Mnemonics by their names.
ghost use Rattle.text.specs.Named.{Named};

use crate::mnemonic::Mnemonic;
use isa::operation::*;

impl Mnemonic {
    pub const ALL: [Mnemonic; 45] = [
        Mnemonic::Register(RegisterOp::Addu),
        Mnemonic::Register(RegisterOp::Addc),
        Mnemonic::Register(RegisterOp::Subu),
        Mnemonic::Register(RegisterOp::And),
        Mnemonic::Register(RegisterOp::Andn),
        Mnemonic::Register(RegisterOp::Or),
        Mnemonic::Register(RegisterOp::Lsl),
        Mnemonic::Register(RegisterOp::Lsr),
        Mnemonic::Register(RegisterOp::Asr),
        Mnemonic::Register(RegisterOp::Rotl),
        Mnemonic::Register(RegisterOp::Mult),
        Mnemonic::Register(RegisterOp::Ixh),
        Mnemonic::Register(RegisterOp::Ixw),
        Mnemonic::Immediate(ImmediateOp::Addi),
        Mnemonic::Immediate(ImmediateOp::Andi),
        Mnemonic::Immediate(ImmediateOp::Lsli),
        Mnemonic::Immediate(ImmediateOp::Lsri),
        Mnemonic::Immediate(ImmediateOp::Asri),
        Mnemonic::Immediate(ImmediateOp::Rotli),
        Mnemonic::Immediate(ImmediateOp::Bclri),
        Mnemonic::Immediate(ImmediateOp::Bseti),
        Mnemonic::Test(TestOp::Btsti),
        Mnemonic::Test(TestOp::Cmplti),
        Mnemonic::Test(TestOp::Cmpnei),
        Mnemonic::Compare(CompareOp::Cmphs),
        Mnemonic::Compare(CompareOp::Cmplt),
        Mnemonic::Compare(CompareOp::Cmpne),
        Mnemonic::Access(AccessOp::LdB),
        Mnemonic::Access(AccessOp::LdH),
        Mnemonic::Access(AccessOp::LdW),
        Mnemonic::Access(AccessOp::LdBs),
        Mnemonic::Access(AccessOp::LdHs),
        Mnemonic::Access(AccessOp::StB),
        Mnemonic::Access(AccessOp::StH),
        Mnemonic::Access(AccessOp::StW),
        Mnemonic::Constant(ConstantOp::Movi),
        Mnemonic::Constant(ConstantOp::Movih),
        Mnemonic::Jump(JumpOp::Jmp),
        Mnemonic::Jump(JumpOp::Jsr),
        Mnemonic::Move,
        Mnemonic::Bkpt,
        Mnemonic::Relative(Branch::Br),
        Mnemonic::Relative(Branch::Bt),
        Mnemonic::Relative(Branch::Bf),
        Mnemonic::Relative(Branch::Bsr),
    ];

    // The mnemonic that has the name.
    pub fn named(name: &str) -> Option<Mnemonic>
        ensures { Named name.now result }
    {
        Mnemonic::ALL
            .iter()
            .copied()
            .find(|mnemonic| mnemonic.name() == name)
    }
}
