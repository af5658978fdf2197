// The operands of an operation.
ghost use Rattle.std.specs.Prelude.{◌≡◌};
ghost use Rattle.table.specs.Diagram.{reg_z, reg_x, reg_y, number};
ghost use Rattle.table.specs.Encode.{operand};

use isa::operation::Operation;

// What an operation lacks is 0.
#[derive(Clone, Copy)]
pub(crate) struct Operands {
    pub(crate) z: u32,
    pub(crate) x: u32,
    pub(crate) y: u32,
    pub(crate) n: u32,
}

impl From<Operation> for Operands {
    ghost from_gives = { λ operation r. (r.z ≡ operand operation reg_z) × (r.x ≡ operand operation reg_x) × (r.y ≡ operand operation reg_y) × (r.n ≡ operand operation number) };

    fn from(operation: Operation) -> Operands {
        let (z, x, y, n) = match operation {
            Operation::Register { z, x, y, .. } => (z, x, y, 0),
            Operation::Immediate { z, x, n, .. } | Operation::Access { z, x, n, .. } => {
                (z, x, 0, n)
            }
            Operation::Test { x, n, .. } => (0, x, 0, n),
            Operation::Compare { x, y, .. } => (0, x, y, 0),
            Operation::Move { z, x } => (z, x, 0, 0),
            Operation::Constant { z, n, .. } => (z, 0, 0, n),
            Operation::Jump { x, .. } => (0, x, 0, 0),
            Operation::Bkpt => (0, 0, 0, 0),
        };
        Operands {
            z: u32::from(z),
            x: u32::from(x),
            y: u32::from(y),
            n,
        }
    }
}

impl Operands {
    // The sources the other way round.
    pub(crate) fn exchanged(self) -> Operands
        ensures z { result.z ≡ self.z }
        ensures x { result.x ≡ self.y }
        ensures y { result.y ≡ self.x }
        ensures n { result.n ≡ self.n }
    {
        Operands {
            x: self.y,
            y: self.x,
            ..self
        }
    }
}
