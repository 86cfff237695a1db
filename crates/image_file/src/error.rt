//! Why some bytes are no image.
ghost use Rattle.std.specs.Prelude.{◌≡◌};

use ease_base::NoMemory;
use thiserror::Error;

/// What is wrong with the bytes, in the order in which it is looked for (docs/FORMATS.md, "The image's refusals").
#[derive(Clone, Copy, Debug, PartialEq, Eq, Error)]
pub enum ImageError {
    /// The bytes don't begin with `EASE`.
    #[error("no image")]
    BadMagic,
    /// The version is this one, neither 1 nor 2.
    #[error("version {0}")]
    BadVersion(u8),
    /// The scheme's byte is this one, neither 0 nor 1.
    #[error("scheme {0}")]
    BadScheme(u8),
    /// The bytes end before the last field does.
    #[error("the bytes end too early")]
    Short,
    /// A count is past its limit; the first, in the order of the fields.
    #[error("a count of {0}")]
    TooLarge(u32),
    /// The code word at this place, from 0, is no instruction; the first.
    #[error("code word {0}")]
    BadWord(u32),
    /// The stride or the kept words (0), or this entry of the symbols and then the peripherals, from 1, is bad; the first.
    #[error("entry {0}")]
    BadSymbol(u32),
    /// This mark, from 1, is bad; the first.
    #[error("mark {0}")]
    BadMark(u32),
    /// Bytes stand behind the last mark.
    #[error("bytes behind the end")]
    Trailing,
    /// Memory ran out.
    #[error("no memory")]
    NoMemory,
}

impl From<NoMemory> for ImageError {
    ghost use Rattle.image_file.specs.declared.error.ImageError.TheVariants.{NoMemory as no_memory};

    ghost from_gives = { λ _ e. e ≡ no_memory };

    fn from(_error: NoMemory) -> ImageError {
        ImageError::NoMemory
    }
}
