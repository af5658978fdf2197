// The first long form of an operation.
ghost use Rattle.std.specs.Prelude.{◌≡◌, true, false};
ghost use Rattle.isa.specs.Normal.{commutes};
ghost use Rattle.table.specs.Diagram.{long};
ghost use Rattle.table.specs.Table.{register_rows, immediate_rows, test_rows, access_rows, constant_rows};
ghost use Rattle.table.specs.Encode.{form_of};
ghost use Rattle.encoder.specs.Forms.{form_by};

use crate::layout::Layout::*;
use crate::operands::Operands;
use crate::row::Row;
use isa::operation::*;
use isa::rule::Rule::*;

// The sources share one range of registers, so exchanging them never helps.
fn register_form(op: RegisterOp, operands: Operands) -> Option<u32>
    ensures { result ≡ form_by long (commutes op) (register_rows op) operands }
{
    let word = match op {
        RegisterOp::Addu => 0xc400_0020,
        RegisterOp::Addc => 0xc400_0040,
        RegisterOp::Subu => 0xc400_0080,
        RegisterOp::And => 0xc400_2020,
        RegisterOp::Andn => 0xc400_2040,
        RegisterOp::Or => 0xc400_2420,
        RegisterOp::Lsl => 0xc400_4020,
        RegisterOp::Lsr => 0xc400_4040,
        RegisterOp::Asr => 0xc400_4080,
        RegisterOp::Rotl => 0xc400_4100,
        RegisterOp::Mult => 0xc400_8420,
        RegisterOp::Ixh => 0xc400_0820,
        RegisterOp::Ixw => 0xc400_0840,
    };
    Row::new(LongZxy, word).held(operands)
}

fn immediate_form(op: ImmediateOp, operands: Operands) -> Option<u32>
    ensures { result ≡ form_by long false (immediate_rows op) operands }
{
    match op {
        ImmediateOp::Addi => Row::new(LongZxV12, 0xe400_0000).by(LessOne).held(operands),
        ImmediateOp::Andi => Row::new(LongZxV12, 0xe400_2000).held(operands),
        ImmediateOp::Lsli => Row::new(LongZxV5, 0xc400_4820).held(operands),
        ImmediateOp::Lsri => Row::new(LongZxV5, 0xc400_4840).held(operands),
        ImmediateOp::Asri => Row::new(LongZxV5, 0xc400_4880).held(operands),
        ImmediateOp::Rotli => Row::new(LongZxV5, 0xc400_4900).held(operands),
        ImmediateOp::Bclri => Row::new(LongZxV5, 0xc400_2820).held(operands),
        ImmediateOp::Bseti => Row::new(LongZxV5, 0xc400_2840).held(operands),
    }
}

fn access_form(op: AccessOp, operands: Operands) -> Option<u32>
    ensures { result ≡ form_by long false (access_rows op) operands }
{
    match op {
        AccessOp::LdB => Row::new(LongZxV12, 0xd800_0000).held(operands),
        AccessOp::LdH => Row::new(LongZxV12, 0xd800_1000).by(Half).held(operands),
        AccessOp::LdW => Row::new(LongZxV12, 0xd800_2000).by(Quarter).held(operands),
        AccessOp::LdBs => Row::new(LongZxV12, 0xd800_4000).held(operands),
        AccessOp::LdHs => Row::new(LongZxV12, 0xd800_5000).by(Half).held(operands),
        AccessOp::StB => Row::new(LongZxV12, 0xdc00_0000).held(operands),
        AccessOp::StH => Row::new(LongZxV12, 0xdc00_1000).by(Half).held(operands),
        AccessOp::StW => Row::new(LongZxV12, 0xdc00_2000).by(Quarter).held(operands),
    }
}

fn test_form(op: TestOp, operands: Operands) -> Option<u32>
    ensures { result ≡ form_by long false (test_rows op) operands }
{
    match op {
        TestOp::Btsti => Row::new(LongXV5, 0xc400_2880).held(operands),
        TestOp::Cmplti => Row::new(LongXV16, 0xeb20_0000).by(LessOne).held(operands),
        TestOp::Cmpnei => Row::new(LongXV16, 0xeb40_0000).held(operands),
    }
}

fn constant_form(op: ConstantOp, operands: Operands) -> Option<u32>
    ensures { result ≡ form_by long false (constant_rows op) operands }
{
    match op {
        ConstantOp::Movi => Row::new(LongZV16, 0xea00_0000).held(operands),
        ConstantOp::Movih => Row::new(LongZV16, 0xea20_0000).held(operands),
    }
}

// The first long form of an operation, if it has one.
pub fn long_form(operation: Operation) -> Option<u32>
    ensures { result ≡ form_of long operation }
{
    let operands = Operands::from(operation);
    match operation {
        Operation::Register { op, .. } => register_form(op, operands),
        Operation::Immediate { op, .. } => immediate_form(op, operands),
        Operation::Test { op, .. } => test_form(op, operands),
        Operation::Access { op, .. } => access_form(op, operands),
        // a move has no long word of its own: it is a shift left by 0, as the table has it
        Operation::Move { .. } => immediate_form(ImmediateOp::Lsli, operands),
        Operation::Constant { op, .. } => constant_form(op, operands),
        Operation::Compare { .. } | Operation::Jump { .. } | Operation::Bkpt => None,
    }
}
