// Where an index of the text lies.
ghost use Rattle.std.specs.Prelude.{◌≡◌, take};
ghost use Rattle.image.specs.Place.{place_of, trouble_at};

use crate::trouble::{Cause, Trouble};

// The line and the column of the byte at an index, or of the text's end.
fn place(text: &[u8], index: usize) -> (usize, usize)
    ensures { result ≡ place_of (take index text.now) }
{
    let (mut line, mut column) = (1, 1);
    for &byte in text.get(..index).unwrap_or(text) {
        if byte == b'\n' {
            line += 1;
            column = 1;
        } else {
            column += 1;
        }
    }
    (line, column)
}

impl Cause {
    // Not inlined: it is for texts that are refused, and the loop that reads a text has better use for its registers.
    #[inline(never)]
    pub(crate) fn at(self, text: &[u8], index: usize) -> Trouble
        ensures { result ≡ trouble_at self (place_of (take index text.now)) }
    {
        let (line, column) = place(text, index);
        Trouble {
            cause: self,
            line,
            column,
        }
    }
}
