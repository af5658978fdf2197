// What each operation computes, of values alone.
ghost use Rattle.std.specs.Prelude.{◌≡◌, ℕ, ◌+◌, ◌-◌, ◌*◌, ◌/◌, ◌%◌, ◌^◌, ◌<◌, Bool};
ghost use Rattle.alu.specs.Values.{sum, register_result, register_carry, immediate_result, test_result, compare_result, constant_result};

use crate::shifts::{asr, below, below_constant, rotl};
use isa::operation::{CompareOp, ConstantOp, ImmediateOp, RegisterOp, TestOp};

// The new value of z, and of C.
pub fn register_result(op: RegisterOp, x: u32, y: u32, c: bool) -> (u32, bool)
    ensures { (result.0 ≡ register_result op x y c) × (result.1 ≡ register_carry op x y c) }
{
    let value = match op {
        RegisterOp::Addu => x.wrapping_add(y),
        RegisterOp::Addc => return x.carrying_add(y, c),
        RegisterOp::Subu => x.wrapping_sub(y),
        RegisterOp::And => x & y,
        RegisterOp::Andn => x & !y,
        RegisterOp::Or => x | y,
        RegisterOp::Lsl => x.unbounded_shl(y % 64),
        RegisterOp::Lsr => x.unbounded_shr(y % 64),
        RegisterOp::Asr => asr(x, y % 64),
        RegisterOp::Rotl => rotl(x, y % 64),
        RegisterOp::Mult => x.wrapping_mul(y),
        RegisterOp::Ixh => x.wrapping_add(2u32.wrapping_mul(y)),
        RegisterOp::Ixw => x.wrapping_add(4u32.wrapping_mul(y)),
    };
    (value, c)
}

pub fn immediate_result(op: ImmediateOp, x: u32, n: u32) -> u32
    ensures { result ≡ immediate_result op x n }
{
    match op {
        ImmediateOp::Addi => x.wrapping_add(n),
        ImmediateOp::Andi => x & n,
        ImmediateOp::Lsli => x.unbounded_shl(n),
        ImmediateOp::Lsri => x.unbounded_shr(n),
        ImmediateOp::Asri => asr(x, n),
        ImmediateOp::Rotli => rotl(x, n),
        ImmediateOp::Bclri => x & !1u32.unbounded_shl(n),
        ImmediateOp::Bseti => x | 1u32.unbounded_shl(n),
    }
}

pub fn test_result(op: TestOp, x: u32, n: u32) -> bool
    ensures { result ≡ test_result op x n }
{
    match op {
        TestOp::Btsti => x.unbounded_shr(n) % 2 == 1,
        TestOp::Cmplti => below_constant(x, n),
        TestOp::Cmpnei => x != n,
    }
}

pub fn compare_result(op: CompareOp, x: u32, y: u32) -> bool
    ensures { result ≡ compare_result op x y }
{
    match op {
        CompareOp::Cmphs => x >= y,
        CompareOp::Cmplt => below(x, y),
        CompareOp::Cmpne => x != y,
    }
}

pub fn constant_result(op: ConstantOp, n: u32) -> u32
    ensures { result ≡ constant_result op n }
{
    match op {
        ConstantOp::Movi => n,
        ConstantOp::Movih => n << 16,
    }
}
