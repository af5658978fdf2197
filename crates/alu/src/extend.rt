// Values narrower than a word, widened with their sign.
ghost use Rattle.std.specs.Prelude.{◌≡◌, ℕ};
ghost use Rattle.alu.specs.Values.{extended};

pub trait SignExtend {
    // How many bits a value has, and the number that they are.
    ghost bits: { ℕ };

    ghost number: { Self → ℕ };

    // The word with the value's top bit in all higher bits.
    fn sign_extend(self) -> u32
        ensures { result ≡ extended bits (number self) };
}

impl SignExtend for u8 {
    ghost bits = { 8 };

    ghost number = { λ byte. byte };

    fn sign_extend(self) -> u32 {
        let byte = self.cast_signed();
        i32::from(byte).cast_unsigned()
    }
}

impl SignExtend for u16 {
    ghost bits = { 16 };

    ghost number = { λ halfword. halfword };

    fn sign_extend(self) -> u32 {
        let halfword = self.cast_signed();
        i32::from(halfword).cast_unsigned()
    }
}
