//! Symbols and marks with their kinds, as far as their bytes are kinds.
ghost use Rattle.std.specs.Prelude.{◌≡◌, ◌≤◌, length, IfOk};
ghost use Rattle.image_file.specs.Faults.{typed_symbols, typed_marks};

use crate::raw::{RawMark, RawSymbol};
use ease_base::{List, NoMemory, Text};
use std::alloc::Global;
use word_isa::{Mark, MarkKind, Symbol, kind_of};

/// The symbols in front of the first whose kind is none.

pub fn typed_symbols(alloc: Global, raws: &[RawSymbol]) -> Result<List<Symbol>, NoMemory>
    ensures typed { IfOk result (λ l. l ≡ typed_symbols raws.now) }
    ensures few { IfOk result (λ l. length l ≤ length raws.now) }
{
    let mut typed = List::new(alloc);
    'raws: for raw in raws {
        let Some(kind) = kind_of(raw.kind) else {
            return Ok(typed);
        };
        typed.push(Symbol {
            name: Text::from_slice(alloc, raw.name.as_slice())?,
            kind,
            base: raw.base,
            length: raw.length,
        })?;
    }
    Ok(typed)
}

/// The marks in front of the first whose kind is none.

pub fn typed_marks(alloc: Global, raws: &[RawMark]) -> Result<List<Mark>, NoMemory>
    ensures typed { IfOk result (λ l. l ≡ typed_marks raws.now) }
    ensures few { IfOk result (λ l. length l ≤ length raws.now) }
{
    let mut typed = List::new(alloc);
    'raws: for raw in raws {
        let Some(kind) = MarkKind::of(raw.kind) else {
            return Ok(typed);
        };
        typed.push(Mark {
            at: raw.at,
            kind,
            site: raw.site,
            task: raw.task,
        })?;
    }
    Ok(typed)
}
