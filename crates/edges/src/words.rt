// The words of a line, read one after another.
use std::str::SplitWhitespace;

#[derive(Drop)]
pub(crate) struct Words<'a>(SplitWhitespace<'a>);

impl<'a> Words<'a> {
    pub(crate) fn of(line: &'a str) -> Words<'a> {
        Words(line.split_whitespace())
    }

    pub(crate) fn word(&mut self) -> Option<&'a str> {
        self.0.next()
    }

    // The words that are left.
    pub(crate) fn rest(&mut self) -> &mut SplitWhitespace<'a> {
        self.0.by_ref()
    }

    pub(crate) fn number(&mut self) -> Option<u32> {
        u32::from_str_radix(self.word()?, 16).ok()
    }

    pub(crate) fn byte(&mut self) -> Option<u8> {
        u8::try_from(self.number()?).ok()
    }

    pub(crate) fn flag(&mut self) -> Option<bool> {
        match self.number()? {
            0 => Some(false),
            1 => Some(true),
            _ => None,
        }
    }
}
