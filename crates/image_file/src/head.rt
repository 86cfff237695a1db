//! The fields in front of an image, behind its magic.
ghost use Rattle.std.specs.Prelude.{◌≡◌, ◌++◌, OnOk, option_map};
ghost use Rattle.image_file.specs.Layout.{head};

use crate::fields::{put_u8, put_u16, split_u8, split_u16};
use crate::raw::Head;
use ease_base::{NoMemory, Text};

/// Puts the fields of `h` at the end of `out`.
#[tactic(auto, using(std::proofs::Common::append_assoc), unfolding(crate::specs::Layout::head))]
pub fn put_head(out: &mut Text, h: Head) -> Result<(), NoMemory>
    ensures { OnOk result (out.new ≡ out.old ++ head.spell h) }
{
    put_u8(out, h.version)?;
    put_u8(out, h.scheme)?;
    put_u16(out, h.state)?;
    put_u16(out, h.stride)?;
    put_u16(out, h.keep)?;
    put_u16(out, h.keep_words)
}

/// The fields in front, and the bytes behind them; None exactly where they end before the fields do.
#[tactic(auto, unfolding(crate::specs::Layout::head))]
pub fn split_head(bytes: &[u8]) -> Option<(Head, &[u8])>
    ensures { option_map (λ p. (p.0, p.1.now)) result ≡ head.read bytes.now }
{
    let (version, bytes) = split_u8(bytes)?;
    let (scheme, bytes) = split_u8(bytes)?;
    let (state, bytes) = split_u16(bytes)?;
    let (stride, bytes) = split_u16(bytes)?;
    let (keep, bytes) = split_u16(bytes)?;
    let (keep_words, bytes) = split_u16(bytes)?;
    Some((
        Head {
            version,
            scheme,
            state,
            stride,
            keep,
            keep_words,
        },
        bytes,
    ))
}
