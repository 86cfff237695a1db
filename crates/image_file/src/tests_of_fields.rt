//! The tests of an image's fields, each telling what is wrong, if anything is.
ghost use Rattle.std.specs.Prelude.{◌≡◌, ◌<◌, ◌≤◌, ◌^◌, length, Some};
ghost use Rattle.image_file.specs.Answers.{told, AreCounted};
ghost use Rattle.image_file.specs.Faults as spec;

use crate::error::ImageError;
use crate::raw::{Head, RawImage};
use ease_base::Peripheral;
use word_isa::{
    Mark, Scheme, Symbol, banks_pass, first_bad_mark, first_bad_peripheral, first_bad_symbol,
    first_bad_word, first_too_large, version_passes,
};

/// The version, if it is there, is one of the two.
pub fn test_version(version: Option<u8>) -> Result<(), ImageError>
    ensures { told result ≡ spec.version_fault version }
{
    match version {
        Some(n) if !version_passes(n) => Err(ImageError::BadVersion(n)),
        Some(_) | None => Ok(()),
    }
}

/// The scheme, if it is there, is one of the two.
pub fn test_scheme(scheme: Option<u8>) -> Result<(), ImageError>
    ensures { told result ≡ spec.scheme_fault scheme }
{
    let Some(n) = scheme else {
        return Ok(());
    };
    match Scheme::of(n) {
        Some(_) => Ok(()),
        None => Err(ImageError::BadScheme(n)),
    }
}

/// No list is longer than an image's may be.
pub fn test_counts(i: &RawImage) -> Result<(), ImageError>
    requires { AreCounted i.now }
    ensures { told result ≡ spec.count_fault i.now }
{
    match first_too_large(
        i.code.len() as u32,
        i.fram.len() as u32,
        i.symbols.len() as u32,
        i.peripherals.len() as u32,
        i.marks.len() as u32,
    ) {
        Some(n) => Err(ImageError::TooLarge(n)),
        None => Ok(()),
    }
}

/// Each word of the code is an instruction.
pub fn test_words(code: &[u32]) -> Result<(), ImageError>
    requires { length code.now < 2 ^ 32 }
    ensures { told result ≡ spec.word_fault code.now }
{
    match first_bad_word(code) {
        Some(at) => Err(ImageError::BadWord(at as u32)),
        None => Ok(()),
    }
}

/// Stride and kept words are those of the scheme, and fit.
pub fn test_banks(scheme: Scheme, h: Head) -> Result<(), ImageError>
    ensures { told result ≡ spec.banks_fault (Some scheme) h.stride h.keep h.keep_words }
{
    if banks_pass(scheme, h.stride, h.keep, h.keep_words) {
        return Ok(());
    }
    Err(ImageError::BadSymbol(0))
}

/// Each symbol is good, where `typed` are those in front of the first whose kind is none.
pub fn test_symbols(i: &RawImage, typed: &[Symbol]) -> Result<(), ImageError>
    requires counted { AreCounted i.now }
    requires typed { typed.now ≡ spec.typed_symbols i.now.symbols }
    requires few { length typed.now ≤ length i.now.symbols }
    ensures { told result ≡ spec.symbol_fault i.now }
{
    let Head {
        keep,
        keep_words,
        stride,
        ..
    } = i.head;
    if let Some(at) = first_bad_symbol(keep, keep_words, stride, typed) {
        return Err(ImageError::BadSymbol(at as u32 + 1));
    }
    if typed.len() < i.symbols.len() {
        return Err(ImageError::BadSymbol(typed.len() as u32 + 1));
    }
    Ok(())
}

/// Each peripheral is good; they are counted on from the symbols.
pub fn test_peripherals(symbols: &[Symbol], peripherals: &[Peripheral]) -> Result<(), ImageError>
    requires symbols { length symbols.now < 2 ^ 16 }
    requires peripherals { length peripherals.now < 2 ^ 16 }
    ensures { told result ≡ spec.bad_peripheral symbols.now peripherals.now }
{
    match first_bad_peripheral(symbols, peripherals) {
        Some(at) => Err(ImageError::BadSymbol((symbols.len() + at) as u32 + 1)),
        None => Ok(()),
    }
}

/// Each mark is good, where `typed` are those in front of the first whose kind is none.
pub fn test_marks(i: &RawImage, typed: &[Mark]) -> Result<(), ImageError>
    requires counted { AreCounted i.now }
    requires typed { typed.now ≡ spec.typed_marks i.now.marks }
    requires few { length typed.now ≤ length i.now.marks }
    ensures { told result ≡ spec.mark_fault i.now }
{
    if let Some(at) = first_bad_mark(i.head.version, i.code.as_slice(), typed) {
        return Err(ImageError::BadMark(at as u32 + 1));
    }
    if typed.len() < i.marks.len() {
        return Err(ImageError::BadMark(typed.len() as u32 + 1));
    }
    Ok(())
}
