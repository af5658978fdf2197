// Parts that say the same thing, brought to one operation.
ghost use Rattle.std.specs.Prelude.{◌≡◌, ◌<◌, ◌≤◌, true, MatchOption};
ghost use Rattle.isa.specs.Normal.{commutes, normal, is_normal, bgeni};

use crate::operation::*;

impl RegisterOp {
    // Either source may stand first.
    pub fn commutes(self) -> bool
        ensures { result ≡ commutes self }
    {
        matches!(
            self,
            RegisterOp::Addu
                | RegisterOp::Addc
                | RegisterOp::And
                | RegisterOp::Or
                | RegisterOp::Mult
        )
    }
}

impl Operation {
    // The lower source first where the order is free; `mov` for `lsli` by 0 and for `addi` from r14 by 0.
    pub fn normal(self) -> Operation
        ensures value { result ≡ normal self }
        ensures normal { is_normal result ≡ true }
    {
        match self {
            Operation::Register { op, z, x, y } if op.commutes() && y < x => {
                Operation::Register { op, z, x: y, y: x }
            }
            Operation::Immediate {
                op: ImmediateOp::Lsli,
                z,
                x,
                n: 0,
            } => Operation::Move { z, x },
            Operation::Immediate {
                op: ImmediateOp::Addi,
                z,
                x: 14,
                n: 0,
            } => { Operation::Move { z, x: 14 } }
            _ => self,
        }
    }

    // Bit n alone in z, by `movi` or by `movih`; none past bit 31.
    pub fn bgeni(z: u8, n: u32) -> Option<Operation>
        ensures { MatchOption result (32 ≤ n) (λ o. (n < 32) × (o ≡ bgeni z n)) }
    {
        match n {
            0..=15 => Some(Operation::Constant {
                op: ConstantOp::Movi,
                z,
                n: 1 << n,
            }),
            16..=31 => Some(Operation::Constant {
                op: ConstantOp::Movih,
                z,
                n: 1 << (n - 16),
            }),
            _ => None,
        }
    }
}
