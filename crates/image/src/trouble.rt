// Why a text is no image, and where; lines and columns count from 1.
ghost use Rattle.std.specs.Prelude.{◌≡◌};
ghost use Rattle.image.specs.declared.trouble.ImageError.TheVariants.{NoImage, OutOfMemory};

use std::alloc::AllocFailed;
use std::io;
use thiserror::Error;

#[derive(Clone, Copy, Debug, PartialEq, Eq, Error)]
pub enum Cause {
    #[error("not a hexadecimal digit")]
    BadDigit,
    #[error("a byte has two digits")]
    HalfByte,
    // `base` without eight digits up to the line's end
    #[error("the base has eight hexadecimal digits")]
    NoBase,
    #[error("the base is odd")]
    OddBase,
    // the base plus the number of bytes reaches 2^32
    #[error("the image goes past the last address")]
    PastTheEnd,
}

#[derive(Clone, Copy, Debug, PartialEq, Eq, Error)]
#[error("line {line} column {column}: {cause}")]
pub struct Trouble {
    pub cause: Cause,
    pub line: usize,
    pub column: usize,
}

// Why a text was not read as an image: it spells none, its reader failed, or memory ran out.
#[derive(Debug, Drop, Error)]
pub enum ImageError {
    #[error(transparent)]
    NoImage(Trouble),
    #[error(transparent)]
    Input(io::Error),
    #[error("memory allocation failed")]
    OutOfMemory,
}

impl From<Trouble> for ImageError {
    ghost from_gives = { λ trouble error. error ≡ NoImage trouble };

    fn from(trouble: Trouble) -> ImageError {
        ImageError::NoImage(trouble)
    }
}

impl<T: Drop> From<AllocFailed<T>> for ImageError {
    ghost from_gives = { λ _ error. error ≡ OutOfMemory };

    fn from(_failed: AllocFailed<T>) -> ImageError {
        ImageError::OutOfMemory
    }
}
