//! The entries of an image's lists: symbols, peripherals and marks.
ghost use Rattle.std.specs.Prelude.{◌≡◌, ◌++◌, ◌<◌, OnOk, IfOk, option_map, length};
ghost use Rattle.image_file.specs.Layout.{symbol, peripheral, mark, task, raw_symbol, raw_mark};

use crate::fields::{put_text, put_u8, put_u32, split_text, split_u8, split_u32};
use crate::raw::{RawMark, RawSymbol};
use ease_base::{NoMemory, Peripheral, Text};
use std::alloc::Global;
use word_isa::{Mark, Symbol, kind_code};

/// Puts a symbol at the end of `out`.
#[tactic(auto, using(std::proofs::Common::append_assoc), unfolding(crate::specs::Layout::symbol))]
pub fn put_symbol(out: &mut Text, s: &Symbol) -> Result<(), NoMemory>
    ensures { OnOk result (out.new ≡ out.old ++ symbol.spell (raw_symbol s.now)) }
{
    put_text(out, s.name.as_slice())?;
    put_u8(out, kind_code(s.kind))?;
    put_u32(out, s.base)?;
    put_u32(out, s.length)
}

/// Puts a peripheral at the end of `out`.
#[tactic(auto, using(std::proofs::Common::append_assoc), unfolding(crate::specs::Layout::peripheral))]
pub fn put_peripheral(out: &mut Text, p: &Peripheral) -> Result<(), NoMemory>
    ensures { OnOk result (out.new ≡ out.old ++ peripheral.spell p.now) }
{
    put_text(out, p.name.as_slice())?;
    put_u8(out, p.number)
}

/// Puts a mark of an image of this version at the end of `out`.
#[tactic(auto, using(std::proofs::Common::append_assoc), unfolding(crate::specs::Layout::mark))]
pub fn put_mark(out: &mut Text, version: u8, m: Mark) -> Result<(), NoMemory>
    ensures { OnOk result (out.new ≡ out.old ++ (mark version).spell (raw_mark m)) }
{
    put_u32(out, m.at)?;
    put_u8(out, m.kind.code())?;
    put_u8(out, m.site)?;
    put_task(out, version, m.task)
}

// Puts the task of a mark, which only version 2 has.
#[tactic(auto, using(crate::proofs::PutLemmas::nothing_behind))]
fn put_task(out: &mut Text, version: u8, n: u8) -> Result<(), NoMemory>
    ensures { OnOk result (out.new ≡ out.old ++ (task version).spell n) }
{
    if version == 2 {
        return put_u8(out, n);
    }
    Ok(())
}

/// The symbol in front, and the bytes behind it; None exactly where they end before it does.
#[tactic(auto, unfolding(crate::specs::Layout::symbol))]
pub fn split_symbol(alloc: Global, bytes: &[u8]) -> Result<Option<(RawSymbol, &[u8])>, NoMemory>
    ensures { IfOk result (λ o. option_map (λ p. (p.0, p.1.now)) o ≡ symbol.read bytes.now) }
{
    let Some((name, bytes)) = split_text(bytes) else {
        return Ok(None);
    };
    let Some((kind, bytes)) = split_u8(bytes) else {
        return Ok(None);
    };
    let Some((base, bytes)) = split_u32(bytes) else {
        return Ok(None);
    };
    let Some((length, bytes)) = split_u32(bytes) else {
        return Ok(None);
    };
    let name = Text::from_slice(alloc, name)?;
    Ok(Some((
        RawSymbol {
            name,
            kind,
            base,
            length,
        },
        bytes,
    )))
}

/// The peripheral in front, and the bytes behind it; None exactly where they end before it does.
#[tactic(auto, unfolding(crate::specs::Layout::peripheral))]
pub fn split_peripheral(
    alloc: Global,
    bytes: &[u8],
) -> Result<Option<(Peripheral, &[u8])>, NoMemory>
    ensures { IfOk result (λ o. option_map (λ p. (p.0, p.1.now)) o ≡ peripheral.read bytes.now) }
{
    let Some((name, bytes)) = split_text(bytes) else {
        return Ok(None);
    };
    let Some((number, bytes)) = split_u8(bytes) else {
        return Ok(None);
    };
    let name = Text::from_slice(alloc, name)?;
    Ok(Some((Peripheral { name, number }, bytes)))
}

/// The mark in front, in an image of this version, and the bytes behind it; None exactly where they end before it does.
#[tactic(auto, unfolding(crate::specs::Layout::mark))]
pub fn split_mark(version: u8, bytes: &[u8]) -> Option<(RawMark, &[u8])>
    ensures { option_map (λ p. (p.0, p.1.now)) result ≡ (mark version).read bytes.now }
{
    let (at, bytes) = split_u32(bytes)?;
    let (kind, bytes) = split_u8(bytes)?;
    let (site, bytes) = split_u8(bytes)?;
    let (task, bytes) = split_task(version, bytes)?;
    Some((
        RawMark {
            at,
            kind,
            site,
            task,
        },
        bytes,
    ))
}

// The task of a mark, which only version 2 has.
fn split_task(version: u8, bytes: &[u8]) -> Option<(u8, &[u8])>
    ensures { option_map (λ p. (p.0, p.1.now)) result ≡ (task version).read bytes.now }
{
    if version == 2 {
        return split_u8(bytes);
    }
    Some((0, bytes))
}
