// The operations of the core with their operands. Registers are 0 to 31; z is the one written, x and y are sources,
// n is the constant that the instruction holds.

// z ← x op y.
#[derive(Clone, Copy, Debug, PartialEq, Eq)]
pub enum RegisterOp {
    Addu,
    Addc,
    Subu,
    And,
    Andn,
    Or,
    Lsl,
    Lsr,
    Asr,
    Rotl,
    Mult,
    Ixh,
    Ixw,
}

// z ← x op n.
#[derive(Clone, Copy, Debug, PartialEq, Eq)]
pub enum ImmediateOp {
    Addi,
    Andi,
    Lsli,
    Lsri,
    Asri,
    Rotli,
    Bclri,
    Bseti,
}

// carry ← x tested against n.
#[derive(Clone, Copy, Debug, PartialEq, Eq)]
pub enum TestOp {
    Btsti,
    Cmplti,
    Cmpnei,
}

// carry ← x compared with y.
#[derive(Clone, Copy, Debug, PartialEq, Eq)]
pub enum CompareOp {
    Cmphs,
    Cmplt,
    Cmpne,
}

// z loaded from, or stored at, x + n.
#[derive(Clone, Copy, Debug, PartialEq, Eq)]
pub enum AccessOp {
    LdB,
    LdH,
    LdW,
    LdBs,
    LdHs,
    StB,
    StH,
    StW,
}

// z ← n, or n in the high halfword.
#[derive(Clone, Copy, Debug, PartialEq, Eq)]
pub enum ConstantOp {
    Movi,
    Movih,
}

// A jump to x; jsr links through r15.
#[derive(Clone, Copy, Debug, PartialEq, Eq)]
pub enum JumpOp {
    Jmp,
    Jsr,
}

// A branch relative to its own address: always, if carry, if no carry, or always with a link through r15.
#[derive(Clone, Copy, Debug, PartialEq, Eq)]
pub enum Branch {
    Br,
    Bt,
    Bf,
    Bsr,
}

#[derive(Clone, Copy, Debug, PartialEq, Eq)]
pub enum Operation {
    Register {
        op: RegisterOp,
        z: u8,
        x: u8,
        y: u8,
    },
    Immediate {
        op: ImmediateOp,
        z: u8,
        x: u8,
        n: u32,
    },
    Test {
        op: TestOp,
        x: u8,
        n: u32,
    },
    Compare {
        op: CompareOp,
        x: u8,
        y: u8,
    },
    Access {
        op: AccessOp,
        z: u8,
        x: u8,
        n: u32,
    },
    Move {
        z: u8,
        x: u8,
    },
    Constant {
        op: ConstantOp,
        z: u8,
        n: u32,
    },
    Jump {
        op: JumpOp,
        x: u8,
    },
    Bkpt,
}

// What a halfword or a word in the image spells: an operation, or a branch with its displacement in halfwords.
#[derive(Clone, Copy, Debug, PartialEq, Eq)]
pub enum Instruction {
    Plain(Operation),
    Relative { branch: Branch, halfwords: i32 },
}
