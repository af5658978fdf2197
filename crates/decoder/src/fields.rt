// Fields of a form, shifted and masked out.
ghost use Rattle.std.specs.Prelude.{◌≡◌, ◌^◌, ◌<◌, ◌≤◌};
ghost use Rattle.table.specs.Decode.{signed};
ghost use Rattle.table.specs.Table.{from_field};
ghost use Rattle.decoder.specs.Fields.{bits, width};

use isa::rule::Rule;
use std::marker::Model;

// Where a field of at most 26 bits stands: from its highest bit down to its lowest.
#[derive(Clone, Copy)]
pub(crate) struct Bits(pub(crate) u32, pub(crate) u32);

impl Model for Bits {
    ghost use Rattle.std.specs.Prelude.{ℕ, ◌+◌, ◌<◌, ◌≤◌};

    ghost Value = { ℕ × ℕ };

    ghost view = { λ b. (b.0, b.1) };

    ghost invariant = { λ b. (b.0 < 32) × ((b.1 ≤ b.0) × (b.0 < b.1 + 26)) };

    ghost inverse = { λ p. (p.0, p.1) };
}

impl Bits {
    fn width(self) -> u32
        ensures value { result ≡ width self }
        ensures bound { (1 ≤ result) × (result ≤ 26) }
    {
        self.0 - self.1 + 1
    }

    // The field's bits, as a number.
    pub(crate) fn of(self, form: u32) -> u32
        ensures value { result ≡ bits self form }
        ensures bound { result < 2 ^ 26 }
    {
        (form >> self.1) & ((1 << self.width()) - 1)
    }

    // A register of three, four or five bits.
    pub(crate) fn register(self, form: u32) -> u8
        requires { width self ≤ 5 }
        ensures { result ≡ bits self form }
    {
        self.of(form) as u8
    }

    // The constant that the field stands for.
    pub(crate) fn constant(self, rule: Rule, form: u32) -> u32
        ensures { result ≡ from_field rule (bits self form) }
    {
        let v = self.of(form);
        match rule {
            Rule::Plain => v,
            Rule::LessOne => v + 1,
            Rule::Half => 2 * v,
            Rule::Quarter => 4 * v,
        }
    }

    // A number in two's complement.
    pub(crate) fn signed(self, form: u32) -> i32
        ensures { result ≡ signed (width self) (bits self form) }
    {
        let v = self.of(form).cast_signed();
        let width = self.width();
        if v < 1 << (width - 1) {
            v
        } else {
            v - (1 << width)
        }
    }
}
