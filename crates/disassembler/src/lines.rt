// The lines of a code, one for each instruction.
ghost use Rattle.std.specs.Prelude.{length};
ghost use Rattle.std.specs.Iterator.{at_most};

use isa::form::Form;
use listing::line::Line;

// The lines from a line on; the last may be of an instruction that is not whole.
#[derive(Clone, Copy)]
pub(crate) struct Lines<'a>(pub(crate) Line<'a>);

impl<'a> Iterator for Lines<'a> {
    type Item = Line<'a>;

    ghost remaining = { λ lines. at_most (length lines.0.code.now) };

    fn next(&mut self) -> Option<Line<'a>> {
        let line = self.0;
        let Line { address, code } = line;
        if code.is_empty() {
            return None;
        }
        let length = Form::at_front(code).map_or(code.len(), Form::length);
        self.0 = Line {
            address: address.wrapping_add(length as u32),
            code: &code[length..],
        };
        Some(line)
    }
}
