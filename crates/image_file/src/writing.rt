//! Writes an image as bytes.
ghost use Rattle.std.specs.Prelude.{◌≡◌, IfOk};
ghost use Rattle.image_file.specs.Bytes.{image_bytes, raw_head};

use crate::head::put_head;
use crate::puts::{put_marks, put_peripherals, put_symbols, put_words};
use crate::raw::Head;
use ease_base::{NoMemory, Text};
use std::alloc::Global;
use word_isa::Image;

/// What each image begins with.
pub const MAGIC: &[u8] = b"EASE";

/// The bytes of an image (docs/FORMATS.md, "The image").
#[tactic(auto, using(crate::proofs::ImageLemmas::counts_fit, crate::proofs::ImageLemmas::all_parts), unfolding(crate::specs::Layout::raw_image))]
pub fn write_image(alloc: Global, image: &Image) -> Result<Text, NoMemory>
    ensures { IfOk result (λ text. text ≡ image_bytes image.now) }
{
    let mut out = Text::from_slice(alloc, MAGIC)?;
    put_head(&mut out, head_of(image))?;
    put_words(&mut out, image.code.as_slice())?;
    put_words(&mut out, image.fram.as_slice())?;
    put_symbols(&mut out, image.symbols.as_slice())?;
    put_peripherals(&mut out, image.peripherals.as_slice())?;
    put_marks(&mut out, image.version, image.marks.as_slice())?;
    Ok(out)
}

// The fields in front of the lists.
fn head_of(image: &Image) -> Head
    ensures { result ≡ raw_head image.now }
{
    Head {
        version: image.version,
        scheme: image.scheme.code(),
        state: image.state,
        stride: image.stride,
        keep: image.keep,
        keep_words: image.keep_words,
    }
}
