// The form in which an act, or a branch, is laid.
ghost use Rattle.std.specs.Prelude.{◌≡◌, Some};
ghost use Rattle.table.specs.Diagram.{short};
ghost use Rattle.table.specs.Encode.{form_of, used, used_branch};
ghost use Rattle.table.specs.Laws.{Least};

use crate::act::Act;
use encoder::branch::{long_branch, short_branch};
use encoder::long::long_form;
use encoder::short::short_form;
use isa::form::Form;
use isa::operation::*;

impl Act {
    // The first short form, if there is one.
    pub fn short(self) -> Option<u16>
        ensures { result ≡ form_of short self.operation }
    {
        short_form(self.operation)
    }

    // The form that is used: the first of least length.
    pub fn form(self) -> Form
        ensures used { used self.operation ≡ Some result }
        ensures least { Least result (Instruction.Plain self.operation) }
    {
        used_form(self.operation).unwrap()
    }
}

// The short form of an operation, or else its long one.
fn used_form(operation: Operation) -> Option<Form>
    ensures { result ≡ used operation }
{
    short_form(operation)
        .map(Form::Short)
        .or_else(|| long_form(operation).map(Form::Long))
}

// The form that is used for a branch by a displacement in halfwords; none where it fits no form.
pub fn branch_form(branch: Branch, halfwords: i32) -> Option<Form>
    ensures { result ≡ used_branch branch halfwords }
{
    short_branch(branch, halfwords)
        .map(Form::Short)
        .or_else(|| long_branch(branch, halfwords).map(Form::Long))
}
