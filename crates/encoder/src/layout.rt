// Where operands stand in a form, by the diagrams of the table.
ghost use Rattle.std.specs.Prelude.{◌≡◌, ◌≤◌, ◌<◌, ◌^◌, MatchOption};
ghost use Rattle.encoder.specs.Layouts.{diagram_of, placed};

use crate::operands::Operands;

#[derive(Clone, Copy)]
pub(crate) enum Layout {
    LowZxy,
    LowZxV3,
    LowZxV5,
    LowZV8,
    LowZzV8,
    LowZR14V8,
    LowZR14V3V5,
    R14R14V2V5,
    LowXV5,
    LowZzV5,
    ZzY,
    ZX,
    YX,
    XAlone,
    LongZxy,
    LongZxV5,
    LongXV5,
    LongZxV12,
    LongZV16,
    LongXV16,
}

// A value, if a field of `width` bits holds it.
fn bits(value: u32, width: u32) -> Option<u32>
    requires { width ≤ 16 }
    ensures { MatchOption result (2 ^ width ≤ value) (λ v. (v ≡ value) × (value < 2 ^ width)) }
{
    (value < 1 << width).then_some(value)
}

impl Layout {
    // The operands in their fields, if they fit them; what has no field is 0.
    // Inlined, because each row names its layout, so that the match comes down to one arm.
    #[inline(always)]
    pub(crate) fn placed(self, operands: Operands) -> Option<u32>
        ensures { result ≡ placed (diagram_of self) operands }
    {
        let Operands { z, x, y, n: v } = operands;
        match self {
            Layout::LowZxy if v == 0 => {
                Some((bits(x, 3)? << 8) + (bits(z, 3)? << 5) + (bits(y, 3)? << 2))
            }
            Layout::LowZxV3 if y == 0 => {
                Some((bits(x, 3)? << 8) + (bits(z, 3)? << 5) + (bits(v, 3)? << 2))
            }
            Layout::LowZxV5 if y == 0 => {
                Some((bits(x, 3)? << 8) + (bits(z, 3)? << 5) + bits(v, 5)?)
            }
            Layout::LowZV8 if x == 0 && y == 0 => Some((bits(z, 3)? << 8) + bits(v, 8)?),
            Layout::LowZzV8 if x == z && y == 0 => Some((bits(z, 3)? << 8) + bits(v, 8)?),
            Layout::LowZR14V8 if x == 14 && y == 0 => Some((bits(z, 3)? << 8) + bits(v, 8)?),
            Layout::LowZR14V3V5 if x == 14 && y == 0 => {
                Some((bits(v >> 5, 3)? << 8) + (bits(z, 3)? << 5) + (v & 31))
            }
            Layout::R14R14V2V5 if z == 14 && x == 14 && y == 0 => {
                Some((bits(v >> 5, 2)? << 8) + (v & 31))
            }
            Layout::LowXV5 if z == 0 && y == 0 => Some((bits(x, 3)? << 8) + bits(v, 5)?),
            Layout::LowZzV5 if x == z && y == 0 => Some((bits(z, 3)? << 8) + bits(v, 5)?),
            Layout::ZzY if x == z && v == 0 => Some((bits(z, 4)? << 6) + (bits(y, 4)? << 2)),
            Layout::ZX if y == 0 && v == 0 => Some((bits(z, 4)? << 6) + (bits(x, 4)? << 2)),
            Layout::YX if z == 0 && v == 0 => Some((bits(y, 4)? << 6) + (bits(x, 4)? << 2)),
            Layout::XAlone if z == 0 && y == 0 && v == 0 => Some(bits(x, 4)? << 2),
            Layout::LongZxy if v == 0 => {
                Some((bits(y, 5)? << 21) + (bits(x, 5)? << 16) + bits(z, 5)?)
            }
            Layout::LongZxV5 if y == 0 => {
                Some((bits(v, 5)? << 21) + (bits(x, 5)? << 16) + bits(z, 5)?)
            }
            Layout::LongXV5 if z == 0 && y == 0 => {
                Some((bits(v, 5)? << 21) + (bits(x, 5)? << 16))
            }
            Layout::LongZxV12 if y == 0 => {
                Some((bits(z, 5)? << 21) + (bits(x, 5)? << 16) + bits(v, 12)?)
            }
            Layout::LongZV16 if x == 0 && y == 0 => Some((bits(z, 5)? << 16) + bits(v, 16)?),
            Layout::LongXV16 if z == 0 && y == 0 => Some((bits(x, 5)? << 16) + bits(v, 16)?),
            _ => None,
        }
    }
}
