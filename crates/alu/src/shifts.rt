// Shifts by any count, comparison of signed words, and addresses.
ghost use Rattle.std.specs.Prelude.{◌≡◌, ℕ, ◌+◌, ◌-◌, ◌*◌, ◌/◌, ◌%◌, ◌^◌, ◌<◌, cond, ℤ, pos, int_lt};
ghost use Rattle.alu.specs.Values.{asr, rotl, signed, even, target};

pub(crate) fn asr(x: u32, k: u32) -> u32
    ensures { result ≡ asr x k }
{
    x.cast_signed().unbounded_shr(k).cast_unsigned()
}

pub(crate) fn rotl(x: u32, k: u32) -> u32
    ensures { result ≡ rotl x k }
{
    if k < 32 { x.rotate_left(k) } else { 0 }
}

// x below y, both read as two's complement.
pub(crate) fn below(x: u32, y: u32) -> bool
    ensures { result ≡ int_lt (signed x) (signed y) }
{
    x.cast_signed() < y.cast_signed()
}

// x, read as two's complement, below n.
pub(crate) fn below_constant(x: u32, n: u32) -> bool
    ensures { result ≡ int_lt (signed x) (pos n) }
{
    i64::from(x.cast_signed()) < i64::from(n)
}

// The address with bit 0 cleared.
pub fn even(a: u32) -> u32
    ensures { result ≡ even a }
{
    a & !1
}

// Where a branch at `pc` goes by a displacement in halfwords.
pub fn target(pc: u32, halfwords: i32) -> u32
    ensures { result ≡ target pc halfwords }
{
    pc.wrapping_add(halfwords.cast_unsigned().wrapping_mul(2))
}
