// The text of an operation, as listings show it.
ghost use Rattle.std.specs.Prelude.{Some};
ghost use Rattle.text.specs.Text.{text};

use crate::mnemonic::Mnemonic;
use isa::operation::Operation;
use std::fmt;

// An operation, to be shown.
#[derive(Clone, Copy, Debug, PartialEq, Eq)]
pub struct Text(pub Operation);

impl fmt::Display for Text {
    ghost output = { λ t. Some (text t.0) };

    fn fmt<W: fmt::Write>(&self, f: &mut fmt::Formatter<W>) -> fmt::Result {
        let name = Mnemonic::from(self.0).name();
        match self.0 {
            Operation::Register { z, x, y, .. } => write!(f, "{name} r{z}, r{x}, r{y}"),
            Operation::Immediate { z, x, n, .. } => write!(f, "{name} r{z}, r{x}, {n}"),
            Operation::Test { x, n, .. } => write!(f, "{name} r{x}, {n}"),
            Operation::Compare { x, y, .. } => write!(f, "{name} r{x}, r{y}"),
            Operation::Access { z, x, n, .. } => write!(f, "{name} r{z}, (r{x}, {n})"),
            Operation::Move { z, x } => write!(f, "{name} r{z}, r{x}"),
            Operation::Constant { z, n, .. } => write!(f, "{name} r{z}, {n}"),
            Operation::Jump { x, .. } => write!(f, "{name} r{x}"),
            Operation::Bkpt => write!(f, "{name}"),
        }
    }
}
