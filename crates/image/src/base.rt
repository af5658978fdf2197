// The base of an image: eight digits on a first line that begins `base `, or else 00001000.
ghost use Rattle.std.specs.Prelude.{◌≡◌};
ghost use Rattle.image.specs.Base.{number, ends_line, base_of};

use crate::digit::digit;
use crate::trouble::Cause;

const PREFIX: &[u8] = b"base ";

const DIGITS: usize = 8;

// The number of eight hexadecimal digits; the lemma says that it fits.
#[tactic(auto, using(crate::proofs::Digits::has_room))]
fn number(digits: &[u8; DIGITS]) -> Option<u32>
    ensures { result ≡ number 0 digits.now }
{
    let mut number = 0;
    for &byte in digits {
        number = number * 16 + u32::from(digit(byte)?);
    }
    Some(number)
}

fn ends_line(rest: &[u8]) -> bool
    ensures { result ≡ ends_line rest.now }
{
    matches!(rest, [] | [b'\n', ..])
}

// The base, and the index at which the bytes begin. Callers need none of the cases that are unfolded here.
#[tactic(auto, unfolding(crate::specs::Base::base_of))]
pub(crate) fn read_base(text: &[u8]) -> Result<(u32, usize), Cause>
    ensures { result ≡ base_of text.now }
{
    let Some(line) = text.strip_prefix(PREFIX) else {
        return Ok((0x1000, 0));
    };
    let (digits, rest) = line.split_first_chunk::<DIGITS>().ok_or(Cause::NoBase)?;
    let base = number(digits).ok_or(Cause::NoBase)?;
    if !ends_line(rest) {
        return Err(Cause::NoBase);
    }
    if base % 2 != 0 {
        return Err(Cause::OddBase);
    }
    Ok((base, PREFIX.len() + DIGITS))
}
