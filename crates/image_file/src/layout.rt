//! All fields of an image, one behind another.
ghost use Rattle.std.specs.Prelude.{◌≡◌, IfOk, IfSome, option_map};
ghost use Rattle.image_file.specs.Answers.{AreCounted};
ghost use Rattle.image_file.specs.Layout.{raw_image};

use crate::head::split_head;
use crate::lists::{split_marks, split_peripherals, split_symbols, split_words};
use crate::raw::RawImage;
use ease_base::NoMemory;
use std::alloc::Global;

/// The fields of an image behind its magic, and the bytes behind them; None exactly where they end before the last field
/// does. No value is tested.
#[tactic(auto, unfolding(crate::specs::Layout::raw_image))]
pub fn split_image(alloc: Global, bytes: &[u8]) -> Result<Option<(RawImage, &[u8])>, NoMemory>
    ensures read { IfOk result (λ o. option_map (λ p. (p.0, p.1.now)) o ≡ raw_image.read bytes.now) }
    ensures counted { IfOk result (λ o. IfSome o (λ p. AreCounted p.0)) }
{
    let Some((head, bytes)) = split_head(bytes) else {
        return Ok(None);
    };
    let Some((code, bytes)) = split_words(alloc, bytes)? else {
        return Ok(None);
    };
    let Some((fram, bytes)) = split_words(alloc, bytes)? else {
        return Ok(None);
    };
    let Some((symbols, bytes)) = split_symbols(alloc, bytes)? else {
        return Ok(None);
    };
    let Some((peripherals, bytes)) = split_peripherals(alloc, bytes)? else {
        return Ok(None);
    };
    let Some((marks, bytes)) = split_marks(alloc, head.version, bytes)? else {
        return Ok(None);
    };
    Ok(Some((
        RawImage {
            head,
            code,
            fram,
            symbols,
            peripherals,
            marks,
        },
        bytes,
    )))
}
