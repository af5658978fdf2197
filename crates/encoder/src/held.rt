// What rows hold.
ghost use Rattle.std.specs.Prelude.{◌≡◌, true, [], ◌∷◌};
ghost use Rattle.table.specs.Encode.{held};
ghost use Rattle.encoder.specs.Forms.{row_of, held_by, first_by};

use crate::operands::Operands;
use crate::row::Row;

impl Row {
    // The row's form of the operands, if it can hold them.
    // Inlined, so that the row's layout and rule are known here: without, an operation takes twice the time.
    #[inline(always)]
    pub(crate) fn held(self, operands: Operands) -> Option<u32>
        ensures { result ≡ held_by (row_of self) operands }
    {
        let n = self.field(operands.n)?;
        Some(self.word + self.layout.placed(Operands { n, ..operands })?)
    }

    // Likewise, with the sources exchanged; inlined for the same reason, as what calls it is.
    #[inline(always)]
    fn held_exchanged(self, operands: Operands) -> Option<u32>
        ensures { result ≡ held (row_of self) operands.z operands.y operands.x operands.n }
    {
        self.held(operands.exchanged())
    }

    // Likewise, or with the sources exchanged; `or`, since to ask for both takes less time than to branch.
    #[inline(always)]
    pub(crate) fn held_either(self, operands: Operands) -> Option<u32>
        ensures { result ≡ first_by true (row_of self ∷ []) operands }
    {
        self.held(operands).or(self.held_exchanged(operands))
    }
}
