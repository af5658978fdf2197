// What a byte of the text does, after the high digit of a byte or between bytes.
ghost use Rattle.std.specs.Prelude.{◌≡◌, ◌<◌, IfSome};
ghost use Rattle.image.specs.Digit.{digit, gap, next};

use crate::trouble::Cause;

#[derive(Clone, Copy, Debug, PartialEq, Eq)]
pub(crate) enum Turn {
    Gap,
    High(u8),
    Byte(u8),
}

// The value of a hexadecimal digit.
pub(crate) fn digit(byte: u8) -> Option<u8>
    ensures value { result ≡ digit byte }
    ensures bound { IfSome result (λ d. d < 16) }
{
    match byte {
        b'0'..=b'9' => Some(byte - b'0'),
        b'A'..=b'F' => Some(byte - b'A' + 10),
        b'a'..=b'f' => Some(byte - b'a' + 10),
        _ => None,
    }
}

fn is_gap(byte: u8) -> bool
    ensures { result ≡ gap byte }
{
    matches!(byte, b' ' | b'\n')
}

pub(crate) fn next(high: Option<u8>, byte: u8) -> Result<Turn, Cause>
    ensures { result ≡ next high byte }
{
    match (high, digit(byte)) {
        (None, Some(d)) => Ok(Turn::High(d)),
        (Some(h), Some(d)) => Ok(Turn::Byte((h << 4) | d)),
        (None, None) if is_gap(byte) => Ok(Turn::Gap),
        (Some(_), None) if is_gap(byte) => Err(Cause::HalfByte),
        _ => Err(Cause::BadDigit),
    }
}
