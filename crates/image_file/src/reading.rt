//! Reads the bytes of an image, or tells the first thing that is wrong with them.
ghost use Rattle.std.specs.Prelude.{◌≡◌, ◌≢◌, [], Some, None, IfOk, IfErr, MatchResult, slice_get, option_map};
ghost use Rattle.image_file.specs.Answers.{Answers, AreCounted};
ghost use Rattle.image_file.specs.Bytes.{raw_of, image_bytes, IsImageAt, HasFields};
ghost use Rattle.image_file.specs.Faults as spec;
ghost use Rattle.image_file.specs.Layout.{raw_image};
ghost use Rattle.word_isa.specs.Codes.{scheme_of};
ghost use Rattle.word_isa.specs.declared.image.Image.{Image};

use crate::error::ImageError;
use crate::fields::split_bytes;
use crate::layout::split_image;
use crate::raw::RawImage;
use crate::tests_of_fields::{
    test_banks, test_counts, test_marks, test_peripherals, test_scheme, test_symbols, test_version,
    test_words,
};
use crate::typed::{typed_marks, typed_symbols};
use crate::writing::MAGIC;
use ease_base::List;
use std::alloc::Global;
use word_isa::{Image, Mark, Scheme, Symbol};

/// The image that the bytes are, or the first thing that is wrong with them (docs/FORMATS.md, "The image's refusals").
pub fn read_image(alloc: Global, bytes: &[u8]) -> Result<Image, ImageError>
    // an image with these bytes, or the first fault
    ensures found { IfOk result (λ i. bytes.now ≡ image_bytes i) }
    ensures refused { IfErr result (λ fault. fault ≢ ImageError.NoMemory → spec.image_fault bytes.now ≡ Some fault) }
    // the bytes of an image are never refused, and read as it
    ensures only { (i : Image) → HasFields i → bytes.now ≡ image_bytes i → MatchResult result (λ j. raw_of j ≡ raw_of i) (λ fault. fault ≢ ImageError.NoMemory → ⊥) }
{
    image_at(alloc, bytes)
}

// The image that stands at the bytes.
#[tactic(auto, unfolding(crate::specs::Faults::image_fault))]
fn image_at(alloc: Global, bytes: &[u8]) -> Result<Image, ImageError>
    ensures { Answers (spec.image_fault bytes.now) (λ i. IsImageAt bytes.now i) result }
{
    match behind_magic(bytes) {
        Some(fields) => read_fields(alloc, fields),
        None => Err(ImageError::BadMagic),
    }
}

// What stands behind the magic, if the bytes begin with it.
#[tactic(auto, unfolding(crate::specs::Faults::behind_magic))]
fn behind_magic(bytes: &[u8]) -> Option<&[u8]>
    ensures { option_map (λ fields. fields.now) result ≡ spec.behind_magic bytes.now }
{
    let (magic, fields) = split_bytes(4, bytes)?;
    if magic != MAGIC {
        return None;
    }
    Some(fields)
}

// The image whose fields stand behind the magic.
fn read_fields(alloc: Global, fields: &[u8]) -> Result<Image, ImageError>
    ensures { Answers (spec.front_fault fields.now) (λ i. raw_image.read fields.now ≡ Some (raw_of i, [])) result }
{
    test_version(byte_at(fields, 0))?;
    test_scheme(byte_at(fields, 1))?;
    match split_image(alloc, fields)? {
        Some((raw, rest)) => whole_image(alloc, raw, rest),
        None => Err(ImageError::Short),
    }
}

// The byte at a place, if it is there.
fn byte_at(fields: &[u8], at: usize) -> Option<u8>
    ensures { result ≡ slice_get fields.now at }
{
    fields.get(at).copied()
}

// The image that has these fields, with nothing behind them.
fn whole_image(alloc: Global, raw: RawImage, rest: &[u8]) -> Result<Image, ImageError>
    requires { AreCounted raw }
    ensures { Answers (spec.layout_fault (Some (raw, rest.now))) (λ i. (raw_of i ≡ raw) × (rest.now ≡ [])) result }
{
    match tested_image(alloc, raw) {
        Ok(image) if rest.is_empty() => Ok(image),
        Ok(_) => Err(ImageError::Trailing),
        Err(fault) => Err(fault),
    }
}

// The image that has these fields.
#[tactic(auto, unfolding(crate::specs::Faults::fields_fault))]
fn tested_image(alloc: Global, raw: RawImage) -> Result<Image, ImageError>
    requires { AreCounted raw }
    ensures { Answers (spec.fields_fault raw) (λ i. raw_of i ≡ raw) result }
{
    test_version(Some(raw.head.version))?;
    let Some(scheme) = Scheme::of(raw.head.scheme) else {
        return Err(ImageError::BadScheme(raw.head.scheme));
    };
    test_counts(&raw)?;
    test_words(raw.code.as_slice())?;
    test_banks(scheme, raw.head)?;
    let symbols = typed_symbols(alloc, raw.symbols.as_slice())?;
    test_symbols(&raw, symbols.as_slice())?;
    test_peripherals(symbols.as_slice(), raw.peripherals.as_slice())?;
    let marks = typed_marks(alloc, raw.marks.as_slice())?;
    test_marks(&raw, marks.as_slice())?;
    Ok(image_of(raw, scheme, symbols, marks))
}

// Fields that pass every test as an image.
fn image_of(raw: RawImage, scheme: Scheme, symbols: List<Symbol>, marks: List<Mark>) -> Image
    requires passes { spec.fields_fault raw ≡ None }
    requires scheme { scheme_of raw.head.scheme ≡ Some scheme }
    requires symbols { symbols ≡ spec.typed_symbols raw.symbols }
    requires marks { marks ≡ spec.typed_marks raw.marks }
    ensures { raw_of result ≡ raw }
{
    Image {
        version: raw.head.version,
        scheme,
        state: raw.head.state,
        stride: raw.head.stride,
        keep: raw.head.keep,
        keep_words: raw.head.keep_words,
        code: raw.code,
        fram: raw.fram,
        symbols,
        peripherals: raw.peripherals,
        marks,
    }
}
