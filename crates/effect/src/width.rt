// How many bytes an access takes: one, two or four.
ghost use Rattle.std.specs.Prelude.{◌≡◌};
ghost use Rattle.effect.specs.Access.{aligned, checked};

use crate::trap::Trap;

#[derive(Clone, Copy, Debug, PartialEq, Eq)]
pub enum Width {
    Byte,
    Halfword,
    Word,
}

impl Width {
    // The address is a multiple of the width.
    pub(crate) fn is_aligned(self, at: u32) -> bool
        ensures { result ≡ aligned self at }
    {
        match self {
            Width::Byte => true,
            Width::Halfword => at % 2 == 0,
            Width::Word => at % 4 == 0,
        }
    }
    // Refuses an address that is no multiple of the width.
    pub(crate) fn check(self, at: u32) -> Result<(), Trap>
        ensures { result ≡ checked self at }
    {
        if !self.is_aligned(at) {
            return Err(Trap::Misaligned { address: at });
        }
        Ok(())
    }
}
