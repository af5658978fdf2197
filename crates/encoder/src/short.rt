// The first short form of an operation.
ghost use Rattle.std.specs.Prelude.{◌≡◌, true, false};
ghost use Rattle.isa.specs.Normal.{commutes};
ghost use Rattle.table.specs.Diagram.{short};
ghost use Rattle.table.specs.Table.{register_rows, immediate_rows, test_rows, compare_rows, access_rows, constant_rows, jump_rows};
ghost use Rattle.table.specs.Encode.{form_of};
ghost use Rattle.encoder.specs.Forms.{form_by};

use crate::layout::Layout::*;
use crate::operands::Operands;
use crate::row::Row;
use isa::operation::*;
use isa::rule::Rule::*;

fn register_form(op: RegisterOp, operands: Operands) -> Option<u32>
    ensures { result ≡ form_by short (commutes op) (register_rows op) operands }
{
    match op {
        RegisterOp::Addu => Row::new(LowZxy, 0x5800)
            .held(operands)
            .or_else(|| Row::new(ZzY, 0x6000).held_either(operands)),
        RegisterOp::Addc => Row::new(ZzY, 0x6001).held_either(operands),
        RegisterOp::Subu => Row::new(LowZxy, 0x5801)
            .held(operands)
            .or_else(|| Row::new(ZzY, 0x6002).held(operands)),
        RegisterOp::And => Row::new(ZzY, 0x6800).held_either(operands),
        RegisterOp::Andn => Row::new(ZzY, 0x6801).held(operands),
        RegisterOp::Or => Row::new(ZzY, 0x6c00).held_either(operands),
        RegisterOp::Lsl => Row::new(ZzY, 0x7000).held(operands),
        RegisterOp::Lsr => Row::new(ZzY, 0x7001).held(operands),
        RegisterOp::Asr => Row::new(ZzY, 0x7002).held(operands),
        RegisterOp::Rotl => Row::new(ZzY, 0x7003).held(operands),
        RegisterOp::Mult => Row::new(ZzY, 0x7c00).held_either(operands),
        RegisterOp::Ixh | RegisterOp::Ixw => None,
    }
}

fn immediate_form(op: ImmediateOp, operands: Operands) -> Option<u32>
    ensures { result ≡ form_by short false (immediate_rows op) operands }
{
    match op {
        ImmediateOp::Addi => Row::new(LowZxV3, 0x5802)
            .by(LessOne)
            .held(operands)
            .or_else(|| Row::new(LowZzV8, 0x2000).by(LessOne).held(operands))
            .or_else(|| Row::new(LowZR14V8, 0x1800).by(Quarter).held(operands))
            .or_else(|| Row::new(R14R14V2V5, 0x1400).by(Quarter).held(operands)),
        ImmediateOp::Lsli => Row::new(LowZxV5, 0x4000).held(operands),
        ImmediateOp::Lsri => Row::new(LowZxV5, 0x4800).held(operands),
        ImmediateOp::Asri => Row::new(LowZxV5, 0x5000).held(operands),
        ImmediateOp::Bclri => Row::new(LowZzV5, 0x3880).held(operands),
        ImmediateOp::Bseti => Row::new(LowZzV5, 0x38a0).held(operands),
        ImmediateOp::Andi | ImmediateOp::Rotli => None,
    }
}

fn test_form(op: TestOp, operands: Operands) -> Option<u32>
    ensures { result ≡ form_by short false (test_rows op) operands }
{
    match op {
        TestOp::Btsti => Row::new(LowXV5, 0x38c0).held(operands),
        TestOp::Cmplti => Row::new(LowXV5, 0x3820).by(LessOne).held(operands),
        TestOp::Cmpnei => Row::new(LowXV5, 0x3840).held(operands),
    }
}

fn access_form(op: AccessOp, operands: Operands) -> Option<u32>
    ensures { result ≡ form_by short false (access_rows op) operands }
{
    match op {
        AccessOp::LdB => Row::new(LowZxV5, 0x8000).held(operands),
        AccessOp::LdH => Row::new(LowZxV5, 0x8800).by(Half).held(operands),
        AccessOp::LdW => Row::new(LowZR14V3V5, 0x9800)
            .by(Quarter)
            .held(operands)
            .or_else(|| Row::new(LowZxV5, 0x9000).by(Quarter).held(operands)),
        AccessOp::StB => Row::new(LowZxV5, 0xa000).held(operands),
        AccessOp::StH => Row::new(LowZxV5, 0xa800).by(Half).held(operands),
        AccessOp::StW => Row::new(LowZR14V3V5, 0xb800)
            .by(Quarter)
            .held(operands)
            .or_else(|| Row::new(LowZxV5, 0xb000).by(Quarter).held(operands)),
        AccessOp::LdBs | AccessOp::LdHs => None,
    }
}

fn compare_form(op: CompareOp, operands: Operands) -> Option<u32>
    ensures { result ≡ form_by short false (compare_rows op) operands }
{
    match op {
        CompareOp::Cmphs => Row::new(YX, 0x6400).held(operands),
        CompareOp::Cmplt => Row::new(YX, 0x6401).held(operands),
        CompareOp::Cmpne => Row::new(YX, 0x6402).held(operands),
    }
}

fn constant_form(op: ConstantOp, operands: Operands) -> Option<u32>
    ensures { result ≡ form_by short false (constant_rows op) operands }
{
    match op {
        ConstantOp::Movi => Row::new(LowZV8, 0x3000).held(operands),
        ConstantOp::Movih => None,
    }
}

fn jump_form(op: JumpOp, operands: Operands) -> Option<u32>
    ensures { result ≡ form_by short false (jump_rows op) operands }
{
    match op {
        JumpOp::Jmp => Row::new(XAlone, 0x7800).held(operands),
        JumpOp::Jsr => Row::new(XAlone, 0x7801).held(operands),
    }
}

fn first_form(operation: Operation) -> Option<u32>
    ensures { result ≡ form_of short operation }
{
    let operands = Operands::from(operation);
    match operation {
        Operation::Register { op, .. } => register_form(op, operands),
        Operation::Immediate { op, .. } => immediate_form(op, operands),
        Operation::Test { op, .. } => test_form(op, operands),
        Operation::Compare { op, .. } => compare_form(op, operands),
        Operation::Access { op, .. } => access_form(op, operands),
        Operation::Move { .. } => Row::new(ZX, 0x6c03).held(operands),
        Operation::Constant { op, .. } => constant_form(op, operands),
        Operation::Jump { op, .. } => jump_form(op, operands),
        Operation::Bkpt => Some(0x0000),
    }
}

// The first short form of an operation, if it has one.
pub fn short_form(operation: Operation) -> Option<u16>
    ensures { result ≡ form_of short operation }
{
    Some(first_form(operation)? as u16)
}
