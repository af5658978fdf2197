// An image by its text.
ghost use Rattle.std.specs.Prelude.{◌≡◌, IfSome};
ghost use Rattle.image.specs.Image.{image_of, view, Reads};
ghost use Rattle.image.specs.Read.{Answers};

use crate::base::read_base;
use crate::image::Image;
use crate::read::read_bytes;
use crate::trouble::{Cause, ImageError};
use std::alloc::Global;
use std::io::Read;

// The image that a text spells, or why it spells none and where; a wrong base is told at its first digit, index 5.
pub fn read_image(heap: Global, text: &[u8]) -> Result<Image, ImageError>
    ensures { Answers view text.now (image_of text.now) result }
{
    let (base, from) = read_base(text).map_err(|cause| cause.at(text, 5))?;
    let bytes = read_bytes(heap, text, from)?;
    if base as usize + bytes.len() >= 0x1_0000_0000 {
        return Err(Cause::PastTheEnd.at(text, 5).into());
    }
    Ok(Image { base, bytes })
}

impl Image {
    // The image that a reader spells up to its end.
    pub fn read<R: Read>(heap: Global, input: &mut R) -> Result<Image, ImageError>
        ensures { IfSome (R.remaining input.old) (λ text. Reads text result) }
    {
        let mut text = Vec::new(heap);
        input.read_to_end(&mut text).map_err(ImageError::Input)?;
        read_image(heap, text.as_slice())
    }
}
