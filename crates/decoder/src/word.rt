// What a word spells: a match over ranges, with guards on the bits that tell rows of one range apart.
ghost use Rattle.std.specs.Prelude.{◌≡◌};
ghost use Rattle.table.specs.Diagram.{long};
ghost use Rattle.table.specs.Decode.{decode, longs};

use crate::fields::Bits;
use crate::layouts::*;
use isa::operation::AccessOp::*;
use isa::operation::Branch::*;
use isa::operation::ConstantOp::*;
use isa::operation::ImmediateOp::*;
use isa::operation::Instruction;
use isa::operation::RegisterOp::*;
use isa::operation::TestOp::*;
use isa::rule::Rule::*;

// Three registers, or two and five bits.
fn registers_and_shifts(w: u32) -> Option<Instruction>
    ensures { result ≡ longs 0xc0000000 0xd0000000 w }
{
    let sub_opcode = Bits(15, 5).of(w);
    match w {
        0xc4000000..=0xc7ffffff if sub_opcode == 0x001 => LONG_ZXY.register(Addu, w),
        0xc4000000..=0xc7ffffff if sub_opcode == 0x002 => LONG_ZXY.register(Addc, w),
        0xc4000000..=0xc7ffffff if sub_opcode == 0x004 => LONG_ZXY.register(Subu, w),
        0xc4000000..=0xc7ffffff if sub_opcode == 0x041 => LONG_ZXY.register(Ixh, w),
        0xc4000000..=0xc7ffffff if sub_opcode == 0x042 => LONG_ZXY.register(Ixw, w),
        0xc4000000..=0xc7ffffff if sub_opcode == 0x101 => LONG_ZXY.register(And, w),
        0xc4000000..=0xc7ffffff if sub_opcode == 0x102 => LONG_ZXY.register(Andn, w),
        0xc4000000..=0xc7ffffff if sub_opcode == 0x121 => LONG_ZXY.register(Or, w),
        0xc4000000..=0xc7ffffff if sub_opcode == 0x141 => LONG_ZXY.immediate(Bclri, Plain, w),
        0xc4000000..=0xc7ffffff if sub_opcode == 0x142 => LONG_ZXY.immediate(Bseti, Plain, w),
        0xc4000000..=0xc7ffffff if sub_opcode == 0x144 && Bits(4, 0).of(w) == 0 => LONG_ZXY.test(
            Btsti, Plain, w,
        ),
        0xc4000000..=0xc7ffffff if sub_opcode == 0x201 => LONG_ZXY.register(Lsl, w),
        0xc4000000..=0xc7ffffff if sub_opcode == 0x202 => LONG_ZXY.register(Lsr, w),
        0xc4000000..=0xc7ffffff if sub_opcode == 0x204 => LONG_ZXY.register(Asr, w),
        0xc4000000..=0xc7ffffff if sub_opcode == 0x208 => LONG_ZXY.register(Rotl, w),
        0xc4000000..=0xc7ffffff if sub_opcode == 0x241 => LONG_ZXY.immediate(Lsli, Plain, w),
        0xc4000000..=0xc7ffffff if sub_opcode == 0x242 => LONG_ZXY.immediate(Lsri, Plain, w),
        0xc4000000..=0xc7ffffff if sub_opcode == 0x244 => LONG_ZXY.immediate(Asri, Plain, w),
        0xc4000000..=0xc7ffffff if sub_opcode == 0x248 => LONG_ZXY.immediate(Rotli, Plain, w),
        0xc4000000..=0xc7ffffff if sub_opcode == 0x421 => LONG_ZXY.register(Mult, w),
        _ => None,
    }
}

// Loads, stores and constants of twelve bits, and bsr.
fn offsets_and_calls(w: u32) -> Option<Instruction>
    ensures { result ≡ longs 0xd0000000 0xe8000000 w }
{
    let sub_opcode = Bits(15, 12).of(w);
    match w {
        0xd8000000..=0xdbffffff if sub_opcode == 0 => LONG_ZX_V12.access(LdB, Plain, w),
        0xd8000000..=0xdbffffff if sub_opcode == 1 => LONG_ZX_V12.access(LdH, Half, w),
        0xd8000000..=0xdbffffff if sub_opcode == 2 => LONG_ZX_V12.access(LdW, Quarter, w),
        0xd8000000..=0xdbffffff if sub_opcode == 4 => LONG_ZX_V12.access(LdBs, Plain, w),
        0xd8000000..=0xdbffffff if sub_opcode == 5 => LONG_ZX_V12.access(LdHs, Half, w),
        0xdc000000..=0xdfffffff if sub_opcode == 0 => LONG_ZX_V12.access(StB, Plain, w),
        0xdc000000..=0xdfffffff if sub_opcode == 1 => LONG_ZX_V12.access(StH, Half, w),
        0xdc000000..=0xdfffffff if sub_opcode == 2 => LONG_ZX_V12.access(StW, Quarter, w),
        0xe0000000..=0xe3ffffff => branch(Bsr, Bits(25, 0), w),
        0xe4000000..=0xe7ffffff if sub_opcode == 0 => LONG_ZX_V12.immediate(Addi, LessOne, w),
        0xe4000000..=0xe7ffffff if sub_opcode == 2 => LONG_ZX_V12.immediate(Andi, Plain, w),
        _ => None,
    }
}

// The long branches, and constants of sixteen bits.
fn sixteen_bits(w: u32) -> Option<Instruction>
    ensures { result ≡ longs 0xe8000000 0x100000000 w }
{
    match w {
        0xe8000000..=0xe800ffff => branch(Br, Bits(15, 0), w),
        0xe8400000..=0xe840ffff => branch(Bf, Bits(15, 0), w),
        0xe8600000..=0xe860ffff => branch(Bt, Bits(15, 0), w),
        0xea000000..=0xea1fffff => LONG_ZZ_V16.constant(Movi, w),
        0xea200000..=0xea3fffff => LONG_ZZ_V16.constant(Movih, w),
        0xeb200000..=0xeb3fffff => LONG_ZZ_V16.test(Cmplti, LessOne, w),
        0xeb400000..=0xeb5fffff => LONG_ZZ_V16.test(Cmpnei, Plain, w),
        _ => None,
    }
}

// What a word spells; none where it is in no row.
pub fn decode_word(word: u32) -> Option<Instruction>
    ensures { result ≡ decode long word }
{
    match word {
        0xc0000000..=0xcfffffff => registers_and_shifts(word),
        0xd0000000..=0xe7ffffff => offsets_and_calls(word),
        0xe8000000..=0xffffffff => sixteen_bits(word),
        _ => None,
    }
}
