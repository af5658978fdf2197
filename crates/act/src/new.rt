// Acts from their parts, and from the decoder.
ghost use Rattle.std.specs.Prelude.{◌≡◌, true, false};
ghost use Rattle.table.specs.Encode.{has_form};
ghost use Rattle.act.specs.Made.{Made, Decoded};

use crate::act::Act;
use decoder::form::decode_form;
use encoder::long::long_form;
use encoder::short::short_form;
use isa::form::Form;
use isa::operation::{Instruction, Operation};
use refusal::refusal::Refusal;

// The operation has a short form or a long one.
fn has_form(operation: Operation) -> bool
    ensures { result ≡ has_form operation }
{
    short_form(operation).is_some() || long_form(operation).is_some()
}

impl Act {
    // The act that the parts of an operation say, brought to their normal form.
    pub fn new(parts: Operation) -> Result<Act, Refusal>
        ensures { Made parts result }
    {
        let operation = parts.normal();
        if has_form(operation) {
            Ok(Act { operation })
        } else {
            Err(Refusal::NoForm { column: 0 })
        }
    }

    // The act that a form spells, if it spells one.
    pub fn spelled_by(form: Form) -> Option<Act>
        ensures { Decoded form result }
    {
        match decode_form(form)? {
            Instruction::Plain(operation) => Some(Act { operation }),
            Instruction::Relative { .. } => None,
        }
    }

    pub fn operation(self) -> Operation
        ensures { result ≡ self.operation }
    {
        self.operation
    }
}
