// What a halfword spells: a match over ranges, with guards on the bits that tell rows of one range apart.
ghost use Rattle.std.specs.Prelude.{◌≡◌};
ghost use Rattle.table.specs.Diagram.{short};
ghost use Rattle.table.specs.Decode.{decode, shorts};

use crate::fields::Bits;
use crate::layouts::*;
use isa::operation::AccessOp::*;
use isa::operation::Branch::*;
use isa::operation::CompareOp::*;
use isa::operation::ConstantOp::*;
use isa::operation::ImmediateOp::*;
use isa::operation::JumpOp::*;
use isa::operation::RegisterOp::*;
use isa::operation::TestOp::*;
use isa::operation::{Instruction, Operation};
use isa::rule::Rule::*;

// The breakpoint, the short branches, and addi with eight bits.
fn branches_and_addi(h: u32) -> Option<Instruction>
    ensures { result ≡ shorts 0x0 0x3000 h }
{
    match h {
        0x0000 => act(Operation::Bkpt),
        0x0400..=0x07ff => branch(Br, Bits(9, 0), h),
        0x0800..=0x0bff => branch(Bt, Bits(9, 0), h),
        0x0c00..=0x0fff => branch(Bf, Bits(9, 0), h),
        0x1400..=0x17ff if Bits(7, 5).of(h) == 0 => act(Operation::Immediate {
            op: Addi,
            z: 14,
            x: 14,
            n: 4 * (Bits(9, 8).of(h) * 32 + Bits(4, 0).of(h)),
        }),
        0x1800..=0x1fff => act(Operation::Immediate {
            op: Addi,
            z: Bits(10, 8).register(h),
            x: 14,
            n: Bits(7, 0).constant(Quarter, h),
        }),
        0x2000..=0x27ff => LOW_ZZ_V8.immediate(Addi, LessOne, h),
        _ => None,
    }
}

// Constants and single bits.
fn constants_and_bits(h: u32) -> Option<Instruction>
    ensures { result ≡ shorts 0x3000 0x4000 h }
{
    let sub_opcode = Bits(7, 5).of(h);
    match h {
        0x3000..=0x37ff => LOW_ZZ_V8.constant(Movi, h),
        0x3800..=0x3fff if sub_opcode == 1 => LOW_ZZ_V5.test(Cmplti, LessOne, h),
        0x3800..=0x3fff if sub_opcode == 2 => LOW_ZZ_V5.test(Cmpnei, Plain, h),
        0x3800..=0x3fff if sub_opcode == 4 => LOW_ZZ_V5.immediate(Bclri, Plain, h),
        0x3800..=0x3fff if sub_opcode == 5 => LOW_ZZ_V5.immediate(Bseti, Plain, h),
        0x3800..=0x3fff if sub_opcode == 6 => LOW_ZZ_V5.test(Btsti, Plain, h),
        _ => None,
    }
}

// Shifts by a constant, and sums of r0 to r7.
fn shifts_and_sums(h: u32) -> Option<Instruction>
    ensures { result ≡ shorts 0x4000 0x6000 h }
{
    let sub_opcode = Bits(1, 0).of(h);
    match h {
        0x4000..=0x47ff => LOW_ZX_V5.immediate(Lsli, Plain, h),
        0x4800..=0x4fff => LOW_ZX_V5.immediate(Lsri, Plain, h),
        0x5000..=0x57ff => LOW_ZX_V5.immediate(Asri, Plain, h),
        0x5800..=0x5fff if sub_opcode == 0 => LOW_ZXY.register(Addu, h),
        0x5800..=0x5fff if sub_opcode == 1 => LOW_ZXY.register(Subu, h),
        0x5800..=0x5fff if sub_opcode == 2 => LOW_ZXY.immediate(Addi, LessOne, h),
        _ => None,
    }
}

// Two of r0 to r15: sums, comparisons, logic and mov.
fn two_registers(h: u32) -> Option<Instruction>
    ensures { result ≡ shorts 0x6000 0x7000 h }
{
    let sub_opcode = Bits(1, 0).of(h);
    match h {
        0x6000..=0x63ff if sub_opcode == 0 => ZZ_Y.register(Addu, h),
        0x6000..=0x63ff if sub_opcode == 1 => ZZ_Y.register(Addc, h),
        0x6000..=0x63ff if sub_opcode == 2 => ZZ_Y.register(Subu, h),
        0x6400..=0x67ff if sub_opcode == 0 => compare(Cmphs, h),
        0x6400..=0x67ff if sub_opcode == 1 => compare(Cmplt, h),
        0x6400..=0x67ff if sub_opcode == 2 => compare(Cmpne, h),
        0x6800..=0x6bff if sub_opcode == 0 => ZZ_Y.register(And, h),
        0x6800..=0x6bff if sub_opcode == 1 => ZZ_Y.register(Andn, h),
        0x6c00..=0x6fff if sub_opcode == 0 => ZZ_Y.register(Or, h),
        0x6c00..=0x6fff if sub_opcode == 3 => act(Operation::Move {
            z: Bits(9, 6).register(h),
            x: Bits(5, 2).register(h),
        }),
        _ => None,
    }
}

// Two of r0 to r15: shifts and mult; jumps.
fn shifts_and_jumps(h: u32) -> Option<Instruction>
    ensures { result ≡ shorts 0x7000 0x8000 h }
{
    let sub_opcode = Bits(1, 0).of(h);
    match h {
        0x7000..=0x73ff if sub_opcode == 0 => ZZ_Y.register(Lsl, h),
        0x7000..=0x73ff if sub_opcode == 1 => ZZ_Y.register(Lsr, h),
        0x7000..=0x73ff if sub_opcode == 2 => ZZ_Y.register(Asr, h),
        0x7000..=0x73ff if sub_opcode == 3 => ZZ_Y.register(Rotl, h),
        0x7800..=0x783f if sub_opcode == 0 => jump(Jmp, h),
        0x7800..=0x783f if sub_opcode == 1 => jump(Jsr, h),
        0x7c00..=0x7fff if sub_opcode == 0 => ZZ_Y.register(Mult, h),
        _ => None,
    }
}

fn loads_and_stores(h: u32) -> Option<Instruction>
    ensures { result ≡ shorts 0x8000 0xc000 h }
{
    match h {
        0x8000..=0x87ff => LOW_ZX_V5.access(LdB, Plain, h),
        0x8800..=0x8fff => LOW_ZX_V5.access(LdH, Half, h),
        0x9000..=0x97ff => LOW_ZX_V5.access(LdW, Quarter, h),
        0x9800..=0x9fff => stack_access(LdW, h),
        0xa000..=0xa7ff => LOW_ZX_V5.access(StB, Plain, h),
        0xa800..=0xafff => LOW_ZX_V5.access(StH, Half, h),
        0xb000..=0xb7ff => LOW_ZX_V5.access(StW, Quarter, h),
        0xb800..=0xbfff => stack_access(StW, h),
        _ => None,
    }
}

// What a halfword spells; none where it is in no row.
pub fn decode_halfword(halfword: u16) -> Option<Instruction>
    ensures { result ≡ decode short halfword }
{
    let h = u32::from(halfword);
    match h {
        0x0000..=0x2fff => branches_and_addi(h),
        0x3000..=0x3fff => constants_and_bits(h),
        0x4000..=0x5fff => shifts_and_sums(h),
        0x6000..=0x6fff => two_registers(h),
        0x7000..=0x7fff => shifts_and_jumps(h),
        0x8000..=0xbfff => loads_and_stores(h),
        _ => None,
    }
}
