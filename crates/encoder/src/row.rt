// Rows of the table.
ghost use Rattle.std.specs.Prelude.{◌≡◌, ◌<◌, true, false, MatchOption, ◌==◌};
ghost use Rattle.isa.specs.declared.rule.Rule.TheVariants.{Plain};
ghost use Rattle.table.specs.Table.{to_field, from_field};

use crate::layout::Layout;
use isa::rule::Rule;

// A layout, the word that a form's fixed bits come from, and the rule of its constant.
#[derive(Clone, Copy)]
pub(crate) struct Row {
    pub(crate) layout: Layout,
    pub(crate) word: u32,
    pub(crate) rule: Rule,
    // the fields, below 0x400_0000, are added to the word: below 0xf000_0000 the sum fits 32 bits
    ghost room: { word < 0xf0000000 },
}

impl Row {
    // A row whose field is the constant itself.
    pub(crate) fn new(layout: Layout, word: u32) -> Row
        requires { word < 0xf0000000 }
        ensures layout { result.layout ≡ layout }
        ensures word { result.word ≡ word }
        ensures rule { result.rule ≡ Plain }
    {
        Row {
            layout,
            word,
            rule: Rule::Plain,
        }
    }

    // The row by another rule.
    pub(crate) fn by(self, rule: Rule) -> Row
        ensures layout { result.layout ≡ self.layout }
        ensures word { result.word ≡ self.word }
        ensures rule { result.rule ≡ rule }
    {
        Row {
            layout: self.layout,
            word: self.word,
            rule,
        }
    }

    // What stands in the field for a constant, if the constant can be had back from it.
    // Inlined, because each row names its rule: without, an operation takes twice the time.
    #[inline(always)]
    pub(crate) fn field(self, n: u32) -> Option<u32>
        ensures { MatchOption result ((from_field self.rule (to_field self.rule n) == n) ≡ false) (λ v. ((from_field self.rule (to_field self.rule n) == n) ≡ true) × (v ≡ to_field self.rule n)) }
    {
        match self.rule {
            Rule::Plain => Some(n),
            Rule::LessOne if n != 0 => Some(n - 1),
            Rule::Half if n % 2 == 0 => Some(n / 2),
            Rule::Quarter if n % 4 == 0 => Some(n / 4),
            _ => None,
        }
    }
}
