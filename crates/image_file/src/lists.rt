//! The lists of an image, each behind its length.
ghost use Rattle.std.specs.Prelude.{◌≡◌, ◌<◌, ◌^◌, IfOk, IfSome, option_map, length};
ghost use Rattle.image_file.specs.Fields.{number, many_at, listed};
ghost use Rattle.image_file.specs.Layout.{symbol, peripheral, mark};

use crate::entries::{split_mark, split_peripheral, split_symbol};
use crate::fields::{split_u16, split_u32};
use crate::raw::{RawMark, RawSymbol};
use ease_base::{List, NoMemory, Peripheral, Words};
use std::alloc::Global;

// So many words, and the bytes behind them.
#[tactic(auto, using(crate::specs::ManyLaws::many_first, crate::specs::ManyLaws::many_next, crate::specs::ManyLaws::many_short, crate::specs::ManyLaws::many_last))]
fn many_words(alloc: Global, count: u32, bytes: &[u8]) -> Result<Option<(Words, &[u8])>, NoMemory>
    ensures read { IfOk result (λ o. option_map (λ p. (p.0, p.1.now)) o ≡ many_at (number 4).read count bytes.now) }
    ensures counted { IfOk result (λ o. IfSome o (λ p. length p.0 ≡ count)) }
{
    let mut items = Words::new(alloc);
    let mut rest = bytes;
    'items: for _item in 0..count {
        let Some((item, behind)) = split_u32(rest) else {
            return Ok(None);
        };
        items.push(item)?;
        rest = behind;
    }
    Ok(Some((items, rest)))
}

// So many symbols, and the bytes behind them.
#[tactic(auto, using(crate::specs::ManyLaws::many_first, crate::specs::ManyLaws::many_next, crate::specs::ManyLaws::many_short, crate::specs::ManyLaws::many_last))]
fn many_symbols(
    alloc: Global,
    count: u16,
    bytes: &[u8],
) -> Result<Option<(List<RawSymbol>, &[u8])>, NoMemory>
    ensures read { IfOk result (λ o. option_map (λ p. (p.0, p.1.now)) o ≡ many_at symbol.read count bytes.now) }
    ensures counted { IfOk result (λ o. IfSome o (λ p. length p.0 ≡ count)) }
{
    let mut items = List::new(alloc);
    let mut rest = bytes;
    'items: for _item in 0..count {
        let Some((item, behind)) = split_symbol(alloc, rest)? else {
            return Ok(None);
        };
        items.push(item)?;
        rest = behind;
    }
    Ok(Some((items, rest)))
}

// So many peripherals, and the bytes behind them.
#[tactic(auto, using(crate::specs::ManyLaws::many_first, crate::specs::ManyLaws::many_next, crate::specs::ManyLaws::many_short, crate::specs::ManyLaws::many_last))]
fn many_peripherals(
    alloc: Global,
    count: u16,
    bytes: &[u8],
) -> Result<Option<(List<Peripheral>, &[u8])>, NoMemory>
    ensures read { IfOk result (λ o. option_map (λ p. (p.0, p.1.now)) o ≡ many_at peripheral.read count bytes.now) }
    ensures counted { IfOk result (λ o. IfSome o (λ p. length p.0 ≡ count)) }
{
    let mut items = List::new(alloc);
    let mut rest = bytes;
    'items: for _item in 0..count {
        let Some((item, behind)) = split_peripheral(alloc, rest)? else {
            return Ok(None);
        };
        items.push(item)?;
        rest = behind;
    }
    Ok(Some((items, rest)))
}

// So many marks of an image of this version, and the bytes behind them.
#[tactic(auto, using(crate::specs::ManyLaws::many_first, crate::specs::ManyLaws::many_next, crate::specs::ManyLaws::many_short, crate::specs::ManyLaws::many_last))]
fn many_marks(
    alloc: Global,
    version: u8,
    count: u32,
    bytes: &[u8],
) -> Result<Option<(List<RawMark>, &[u8])>, NoMemory>
    ensures read { IfOk result (λ o. option_map (λ p. (p.0, p.1.now)) o ≡ many_at (mark version).read count bytes.now) }
    ensures counted { IfOk result (λ o. IfSome o (λ p. length p.0 ≡ count)) }
{
    let mut items = List::new(alloc);
    let mut rest = bytes;
    'items: for _item in 0..count {
        let Some((item, behind)) = split_mark(version, rest) else {
            return Ok(None);
        };
        items.push(item)?;
        rest = behind;
    }
    Ok(Some((items, rest)))
}

/// The words in front behind their number, and the bytes behind them; None exactly where they end before the words do.
pub fn split_words(alloc: Global, bytes: &[u8]) -> Result<Option<(Words, &[u8])>, NoMemory>
    ensures read { IfOk result (λ o. option_map (λ p. (p.0, p.1.now)) o ≡ (listed 4 (number 4)).read bytes.now) }
    ensures counted { IfOk result (λ o. IfSome o (λ p. length p.0 < 2 ^ 32)) }
{
    let Some((count, bytes)) = split_u32(bytes) else {
        return Ok(None);
    };
    many_words(alloc, count, bytes)
}

/// The symbols in front behind their number, and the bytes behind them; None exactly where they end before the symbols do.
pub fn split_symbols(
    alloc: Global,
    bytes: &[u8],
) -> Result<Option<(List<RawSymbol>, &[u8])>, NoMemory>
    ensures read { IfOk result (λ o. option_map (λ p. (p.0, p.1.now)) o ≡ (listed 2 symbol).read bytes.now) }
    ensures counted { IfOk result (λ o. IfSome o (λ p. length p.0 < 2 ^ 16)) }
{
    let Some((count, bytes)) = split_u16(bytes) else {
        return Ok(None);
    };
    many_symbols(alloc, count, bytes)
}

/// The peripherals in front behind their number, and the bytes behind them; None exactly where they end before.
pub fn split_peripherals(
    alloc: Global,
    bytes: &[u8],
) -> Result<Option<(List<Peripheral>, &[u8])>, NoMemory>
    ensures read { IfOk result (λ o. option_map (λ p. (p.0, p.1.now)) o ≡ (listed 2 peripheral).read bytes.now) }
    ensures counted { IfOk result (λ o. IfSome o (λ p. length p.0 < 2 ^ 16)) }
{
    let Some((count, bytes)) = split_u16(bytes) else {
        return Ok(None);
    };
    many_peripherals(alloc, count, bytes)
}

/// The marks in front behind their number, in an image of this version, and the bytes behind them; None exactly where they
/// end before.
pub fn split_marks(
    alloc: Global,
    version: u8,
    bytes: &[u8],
) -> Result<Option<(List<RawMark>, &[u8])>, NoMemory>
    ensures read { IfOk result (λ o. option_map (λ p. (p.0, p.1.now)) o ≡ (listed 4 (mark version)).read bytes.now) }
    ensures counted { IfOk result (λ o. IfSome o (λ p. length p.0 < 2 ^ 32)) }
{
    let Some((count, bytes)) = split_u32(bytes) else {
        return Ok(None);
    };
    many_marks(alloc, version, count, bytes)
}
