// How an instruction is spelled in the image: a halfword, or a word.
#[derive(Clone, Copy, Debug, PartialEq, Eq)]
pub enum Form {
    Short(u16),
    Long(u32),
}
