// How each name is spelled.
ghost use Rattle.std.specs.Prelude.{◌≡◌};
ghost use Rattle.text.specs.Names.{name, register_name, immediate_name, access_name};

use crate::mnemonic::Mnemonic;
use isa::operation::*;

impl Mnemonic {
    pub fn name(self) -> &'static str
        ensures { result.now ≡ name self }
    {
        match self {
            Mnemonic::Register(op) => register_name(op),
            Mnemonic::Immediate(op) => immediate_name(op),
            Mnemonic::Access(op) => access_name(op),
            Mnemonic::Test(TestOp::Btsti) => "btsti",
            Mnemonic::Test(TestOp::Cmplti) => "cmplti",
            Mnemonic::Test(TestOp::Cmpnei) => "cmpnei",
            Mnemonic::Compare(CompareOp::Cmphs) => "cmphs",
            Mnemonic::Compare(CompareOp::Cmplt) => "cmplt",
            Mnemonic::Compare(CompareOp::Cmpne) => "cmpne",
            Mnemonic::Move => "mov",
            Mnemonic::Constant(ConstantOp::Movi) => "movi",
            Mnemonic::Constant(ConstantOp::Movih) => "movih",
            Mnemonic::Jump(JumpOp::Jmp) => "jmp",
            Mnemonic::Jump(JumpOp::Jsr) => "jsr",
            Mnemonic::Bkpt => "bkpt",
            Mnemonic::Relative(Branch::Br) => "br",
            Mnemonic::Relative(Branch::Bt) => "bt",
            Mnemonic::Relative(Branch::Bf) => "bf",
            Mnemonic::Relative(Branch::Bsr) => "bsr",
        }
    }
}

fn register_name(op: RegisterOp) -> &'static str
    ensures { result.now ≡ register_name op }
{
    match op {
        RegisterOp::Addu => "addu",
        RegisterOp::Addc => "addc",
        RegisterOp::Subu => "subu",
        RegisterOp::And => "and",
        RegisterOp::Andn => "andn",
        RegisterOp::Or => "or",
        RegisterOp::Lsl => "lsl",
        RegisterOp::Lsr => "lsr",
        RegisterOp::Asr => "asr",
        RegisterOp::Rotl => "rotl",
        RegisterOp::Mult => "mult",
        RegisterOp::Ixh => "ixh",
        RegisterOp::Ixw => "ixw",
    }
}

fn immediate_name(op: ImmediateOp) -> &'static str
    ensures { result.now ≡ immediate_name op }
{
    match op {
        ImmediateOp::Addi => "addi",
        ImmediateOp::Andi => "andi",
        ImmediateOp::Lsli => "lsli",
        ImmediateOp::Lsri => "lsri",
        ImmediateOp::Asri => "asri",
        ImmediateOp::Rotli => "rotli",
        ImmediateOp::Bclri => "bclri",
        ImmediateOp::Bseti => "bseti",
    }
}

fn access_name(op: AccessOp) -> &'static str
    ensures { result.now ≡ access_name op }
{
    match op {
        AccessOp::LdB => "ld.b",
        AccessOp::LdH => "ld.h",
        AccessOp::LdW => "ld.w",
        AccessOp::LdBs => "ld.bs",
        AccessOp::LdHs => "ld.hs",
        AccessOp::StB => "st.b",
        AccessOp::StH => "st.h",
        AccessOp::StW => "st.w",
    }
}
