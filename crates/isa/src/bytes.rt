// A form's bytes, in the order in which they lie in the image.
ghost use Rattle.std.specs.Prelude.{◌≡◌, slice_index};
ghost use Rattle.isa.specs.Bytes.{image, size, front_form};

use crate::form::Form;

impl Form {
    // How many bytes it takes.
    pub fn length(self) -> usize
        ensures { result ≡ size self }
    {
        match self {
            Form::Short(_) => 2,
            Form::Long(_) => 4,
        }
    }

    // The byte at an offset from its address; 0 past its end.
    pub fn byte(self, offset: usize) -> u8
        ensures { result ≡ slice_index (image self) offset }
    {
        let bytes = match self {
            Form::Short(halfword) => {
                let [a, b] = halfword.to_le_bytes();
                [a, b, 0, 0]
            }
            Form::Long(word) => {
                // the high halfword lies first
                let [c, d, a, b] = word.to_le_bytes();
                [a, b, c, d]
            }
        };
        bytes.get(offset).copied().unwrap_or(0)
    }

    // The form at the front of a code, whatever it spells; none where the code ends within it.
    pub fn at_front(code: &[u8]) -> Option<Form>
        ensures { result ≡ front_form code.now }
    {
        match code {
            // the top two bits of the first halfword tell whether a second follows
            [a, b @ 0xc0..=0xff, c, d, ..] => {
                Some(Form::Long(u32::from_le_bytes([*c, *d, *a, *b])))
            }
            [a, b @ 0..=0xbf, ..] => Some(Form::Short(u16::from_le_bytes([*a, *b]))),
            _ => None,
        }
    }
}
