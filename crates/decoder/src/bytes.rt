// The instruction at the front of a code.
ghost use Rattle.std.specs.Prelude.{◌≡◌, MatchOption};
ghost use Rattle.isa.specs.Bytes.{size};
ghost use Rattle.decoder.specs.Decoded.{decoded, decoded_form, decoded_long, known, too_few, ReadsBack};

use crate::decoded::Decoded;
use crate::form::decode_form;
use isa::form::Form;
use refusal::refusal::Refusal;

// The first two bytes, or the first four, and what follows them.
#[tactic(auto, unfolding(crate::specs::Decoded::decoded))]
fn form_at_front(code: &[u8]) -> Option<(Form, &[u8])>
    ensures { MatchOption result (decoded code.now ≡ too_few) (λ f. decoded code.now ≡ known (decoded_form f.0) (size f.0) f.1.now) }
{
    match code {
        [a, b @ 0xc0..=0xff, c, d, rest @ ..] => {
            Some((Form::Long(u32::from_le_bytes([*c, *d, *a, *b])), rest))
        }
        [a, b @ 0..=0xbf, rest @ ..] => Some((Form::Short(u16::from_le_bytes([*a, *b])), rest)),
        _ => None,
    }
}

// What the form at the front of a code spells, and the bytes after it.
pub fn decode(code: &[u8]) -> Result<Decoded<'_>, Refusal>
    ensures { result ≡ decoded code.now }
{
    let (form, rest) = form_at_front(code).ok_or(Refusal::NoInstruction { pc: 0 })?;
    let instruction = decode_form(form).ok_or(Refusal::UnknownInstruction { pc: 0 })?;
    Ok(Decoded {
        instruction,
        length: form.length(),
        rest,
    })
}

// Every form of an instruction decodes to it, whatever follows.
pub fn form_decodes_whatever_follows()
    ensures { ReadsBack }
{}
