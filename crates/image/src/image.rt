// The bytes of an image, and the address of the first.
#[derive(Debug, PartialEq, Eq, Drop)]
pub struct Image {
    pub base: u32,
    pub bytes: Vec<u8>,
}
