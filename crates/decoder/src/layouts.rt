// Where the operands stand in the layouts of the table, and the instructions that they make.
ghost use Rattle.std.specs.Prelude.{◌≡◌, ◌+◌, ◌*◌, ◌≤◌, Some};
ghost use Rattle.isa.specs.Normal.{normal};
ghost use Rattle.table.specs.Decode.{signed};
ghost use Rattle.table.specs.Table.{from_field};
ghost use Rattle.decoder.specs.Fields.{bits, width};

use crate::fields::Bits;
use isa::operation::*;
use isa::rule::Rule;

// The registers z and x, and y or the constant in its place. Where x has no field of its own, it stands in that of z.
#[derive(Clone, Copy)]
pub(crate) struct Layout {
    z: Bits,
    x: Bits,
    y: Bits,
    ghost registers: { (width z ≤ 5) × (width x ≤ 5) },
}

// Layouts whose operands stand in the same places are one here: those of LOW_ZXY and LONG_ZXY hold y or a constant of
// as many bits, and those of the ZZ one register, z or x or both.
pub(crate) const LOW_ZXY: Layout = Layout {
    z: Bits(7, 5),
    x: Bits(10, 8),
    y: Bits(4, 2),
};

pub(crate) const LOW_ZX_V5: Layout = Layout {
    z: Bits(7, 5),
    x: Bits(10, 8),
    y: Bits(4, 0),
};

pub(crate) const LOW_ZZ_V5: Layout = Layout {
    z: Bits(10, 8),
    x: Bits(10, 8),
    y: Bits(4, 0),
};

pub(crate) const LOW_ZZ_V8: Layout = Layout {
    z: Bits(10, 8),
    x: Bits(10, 8),
    y: Bits(7, 0),
};

pub(crate) const ZZ_Y: Layout = Layout {
    z: Bits(9, 6),
    x: Bits(9, 6),
    y: Bits(5, 2),
};

pub(crate) const LONG_ZXY: Layout = Layout {
    z: Bits(4, 0),
    x: Bits(20, 16),
    y: Bits(25, 21),
};

pub(crate) const LONG_ZX_V12: Layout = Layout {
    z: Bits(25, 21),
    x: Bits(20, 16),
    y: Bits(11, 0),
};

pub(crate) const LONG_ZZ_V16: Layout = Layout {
    z: Bits(20, 16),
    x: Bits(20, 16),
    y: Bits(15, 0),
};

pub(crate) fn act(operation: Operation) -> Option<Instruction>
    ensures { result ≡ Some (Instruction.Plain (normal operation)) }
{
    Some(Instruction::Plain(operation.normal()))
}

impl Layout {
    pub(crate) fn register(self, op: RegisterOp, form: u32) -> Option<Instruction>
        requires { width self.y ≤ 5 }
        ensures { result ≡ Some (Instruction.Plain (normal (Operation.Register op (bits self.z form) (bits self.x form) (bits self.y form)))) }
    {
        act(Operation::Register {
            op,
            z: self.z.register(form),
            x: self.x.register(form),
            y: self.y.register(form),
        })
    }

    pub(crate) fn immediate(self, op: ImmediateOp, rule: Rule, form: u32) -> Option<Instruction>
        ensures { result ≡ Some (Instruction.Plain (normal (Operation.Immediate op (bits self.z form) (bits self.x form) (from_field rule (bits self.y form))))) }
    {
        act(Operation::Immediate {
            op,
            z: self.z.register(form),
            x: self.x.register(form),
            n: self.y.constant(rule, form),
        })
    }

    pub(crate) fn test(self, op: TestOp, rule: Rule, form: u32) -> Option<Instruction>
        ensures { result ≡ Some (Instruction.Plain (Operation.Test op (bits self.x form) (from_field rule (bits self.y form)))) }
    {
        act(Operation::Test {
            op,
            x: self.x.register(form),
            n: self.y.constant(rule, form),
        })
    }

    pub(crate) fn access(self, op: AccessOp, rule: Rule, form: u32) -> Option<Instruction>
        ensures { result ≡ Some (Instruction.Plain (Operation.Access op (bits self.z form) (bits self.x form) (from_field rule (bits self.y form)))) }
    {
        act(Operation::Access {
            op,
            z: self.z.register(form),
            x: self.x.register(form),
            n: self.y.constant(rule, form),
        })
    }

    pub(crate) fn constant(self, op: ConstantOp, form: u32) -> Option<Instruction>
        ensures { result ≡ Some (Instruction.Plain (Operation.Constant op (bits self.z form) (bits self.y form))) }
    {
        act(Operation::Constant {
            op,
            z: self.z.register(form),
            n: self.y.of(form),
        })
    }
}

pub(crate) fn branch(branch: Branch, field: Bits, form: u32) -> Option<Instruction>
    ensures { result ≡ Some (Instruction.Relative branch (signed (width field) (bits field form))) }
{
    Some(Instruction::Relative {
        branch,
        halfwords: field.signed(form),
    })
}

// x and y of r0 to r15.
pub(crate) fn compare(op: CompareOp, h: u32) -> Option<Instruction>
    ensures { result ≡ Some (Instruction.Plain (Operation.Compare op (bits (5, 2) h) (bits (9, 6) h))) }
{
    act(Operation::Compare {
        op,
        x: Bits(5, 2).register(h),
        y: Bits(9, 6).register(h),
    })
}

pub(crate) fn jump(op: JumpOp, h: u32) -> Option<Instruction>
    ensures { result ≡ Some (Instruction.Plain (Operation.Jump op (bits (5, 2) h))) }
{
    act(Operation::Jump {
        op,
        x: Bits(5, 2).register(h),
    })
}

// z of r0 to r7, at an offset of eight bits in two fields from r14.
pub(crate) fn stack_access(op: AccessOp, h: u32) -> Option<Instruction>
    ensures { result ≡ Some (Instruction.Plain (Operation.Access op (bits (7, 5) h) 14 (4 * (bits (10, 8) h * 32 + bits (4, 0) h)))) }
{
    act(Operation::Access {
        op,
        z: Bits(7, 5).register(h),
        x: 14,
        n: 4 * (Bits(10, 8).of(h) * 32 + Bits(4, 0).of(h)),
    })
}
