// What a form spells, by its size.
ghost use Rattle.std.specs.Prelude.{◌≡◌};
ghost use Rattle.decoder.specs.Decoded.{decoded_form};

use crate::halfword::decode_halfword;
use crate::word::decode_word;
use isa::form::Form;
use isa::operation::Instruction;

// The instruction that a form spells; none where it is in no row.
pub fn decode_form(form: Form) -> Option<Instruction>
    ensures { result ≡ decoded_form form }
{
    match form {
        Form::Short(halfword) => decode_halfword(halfword),
        Form::Long(word) => decode_word(word),
    }
}
