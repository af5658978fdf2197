// An act: an operation in its normal form that at least one form spells.
ghost use Rattle.std.specs.Prelude.{◌≡◌, true};
ghost use Rattle.table.specs.Encode.{is_act};

use isa::operation::Operation;

#[derive(Clone, Copy, Debug, PartialEq, Eq)]
pub struct Act {
    pub(crate) operation: Operation,
    ghost spelled: { is_act operation ≡ true },
}
