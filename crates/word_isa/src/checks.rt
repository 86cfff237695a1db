//! The tests of an image's version, counts, code words, stride and kept words.
ghost use Rattle.std.specs.Prelude.{◌≡◌, ◌<◌, IfSome, length};
ghost use Rattle.word_isa.specs.Checks as spec;

use crate::encoding::decode;
use crate::parts::Scheme;

/// Whether the version of an image is 1 or 2.
pub fn version_passes(version: u8) -> bool
    ensures { result ≡ spec.version_passes version }
{
    version == 1 || version == 2
}

/// The first of these counts, in their order, that is past its limit: 4194304 code words, 65536 words of FRAM, 256 symbols,
/// 256 peripherals and 2097152 marks.
pub fn first_too_large(
    code: u32,
    fram: u32,
    symbols: u32,
    peripherals: u32,
    marks: u32,
) -> Option<u32>
    ensures { result ≡ spec.first_too_large code fram symbols peripherals marks }
{
    if code > 4_194_304 {
        return Some(code);
    }
    if fram > 65_536 {
        return Some(fram);
    }
    if symbols > 256 {
        return Some(symbols);
    }
    if peripherals > 256 {
        return Some(peripherals);
    }
    (marks > 2_097_152).then_some(marks)
}

/// The place of the first word, from 0, that no row has.
#[tactic(auto, unfolding(crate::specs::Checks::first_bad_word))]
pub fn first_bad_word(code: &[u32]) -> Option<usize>
    ensures value { result ≡ spec.first_bad_word code.now }
    ensures within { IfSome result (λ at. at < length code.now) }
{
    code.iter().position(|word| decode(*word).is_none())
}

/// Whether the stride is 0 where the scheme has one bank, and the kept words, from `keep` on, end with the FRAM at the latest.
pub fn banks_pass(scheme: Scheme, stride: u16, keep: u16, keep_words: u16) -> bool
    ensures { result ≡ spec.banks_pass scheme stride keep keep_words }
{
    if !stride_passes(scheme, stride) {
        return false;
    }
    u32::from(keep) + u32::from(keep_words) <= 65_536
}

fn stride_passes(scheme: Scheme, stride: u16) -> bool
    ensures { result ≡ spec.stride_passes scheme stride }
{
    match scheme {
        Scheme::Undo => stride == 0,
        Scheme::Bank => true,
    }
}
