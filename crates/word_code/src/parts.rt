//! The parts of an image beside its code: the first words of FRAM, and what words and peripherals are called.
ghost use Rattle.std.specs.Prelude.{◌≡◌, ◌+◌, ◌-◌, ◌≤◌, ◌<◌, ◌++◌, ◌∷◌, [], replicate, length, sum_by, IfOk, OnOk};
ghost use Rattle.line_code.specs.Areas.{total};
ghost use Rattle.task_ast.specs.WellFormed.{site_words};
ghost use Rattle.word_code.specs.CodeOf as spec;

use crate::beginnings::home_words;
use ease_base::{List, NoMemory, Peripheral, Text, Words};
use line_code::{Placed, area_at};
use std::alloc::Global;
use task_ast::{Array, Kind};
use word_isa::Symbol;

// The declared words of an array where it is constant, and none else.
fn constant_words(array: &Array) -> &[u32]
    ensures { result.now ≡ spec.constant_words array.now.kind array.now.first }
{
    match array.kind {
        Kind::Const => array.first.as_slice(),
        Kind::Nv | Kind::Vol => &[],
    }
}

// The declared words of all nonvolatile arrays that are written, behind the state word.
fn put_homes(fram: &mut Words, arrays: &[Array]) -> Result<(), NoMemory>
    ensures { OnOk result (fram.new ≡ fram.old ++ spec.homes_of arrays.now) }
{
    'arrays: for array in arrays {
        fram.extend(home_words(array))?;
    }
    Ok(())
}

// The declared words of all constants.
fn constants_of(alloc: Global, arrays: &[Array]) -> Result<Words, NoMemory>
    ensures { IfOk result (λ words. words ≡ spec.constants_of arrays.now) }
{
    let mut words = List::new(alloc);
    'arrays: for array in arrays {
        words.extend(constant_words(array))?;
    }
    Ok(words)
}

// So many words that are 0.
fn put_zeros(fram: &mut Words, count: usize) -> Result<(), NoMemory>
    ensures { OnOk result (fram.new ≡ fram.old ++ replicate count 0) }
{
    'words: for _word in 0..count {
        fram.push(0)?;
    }
    Ok(())
}

/// The first words of FRAM: the state word, the homes, and the constants at their addresses, if there are any.
pub fn fram_of(alloc: Global, arrays: &[Array]) -> Result<Words, NoMemory>
    requires { total arrays.now ≤ 4096 }
    ensures { IfOk result (λ fram. fram ≡ spec.fram_of arrays.now) }
{
    let constants = constants_of(alloc, arrays)?;
    let mut fram = List::new(alloc);
    fram.push(258)?;
    put_homes(&mut fram, arrays)?;
    if constants.is_empty() {
        return Ok(fram);
    }
    let count = 4097 - fram.len();
    put_zeros(&mut fram, count)?;
    fram.extend(constants.as_slice())?;
    Ok(fram)
}

// The symbol of an array that lies there.
fn symbol(alloc: Global, array: &Array, area: Placed) -> Result<Symbol, NoMemory>
    ensures { IfOk result (λ s. s ≡ spec.symbol array.now area) }
{
    let offset = u32::from(area.offset);
    Ok(Symbol {
        name: Text::from_slice(alloc, array.name.as_slice())?,
        kind: array.kind,
        base: if area.base == 15 {
            1_048_576 + offset
        } else {
            offset
        },
        length: u32::from(area.room),
    })
}

/// The symbols of arrays, by where they lie.
pub fn symbols_of(
    alloc: Global,
    arrays: &[Array],
    areas: &[Placed],
) -> Result<List<Symbol>, NoMemory>
    requires { length arrays.now ≤ 256 }
    ensures { IfOk result (λ symbols. symbols ≡ spec.symbols_from areas.now 0 arrays.now) }
{
    let mut symbols = List::new(alloc);
    'arrays: for (number, array) in arrays.iter().enumerate() {
        let area = area_at(areas, number as u32);
        symbols.push(symbol(alloc, array, area)?)?;
    }
    Ok(symbols)
}

/// The same peripherals again.
pub fn copy_peripherals(
    alloc: Global,
    peripherals: &[Peripheral],
) -> Result<List<Peripheral>, NoMemory>
    ensures { IfOk result (λ copies. copies ≡ peripherals.now) }
{
    let mut copies = List::new(alloc);
    'peripherals: for peripheral in peripherals {
        copies.push(Peripheral {
            name: Text::from_slice(alloc, peripheral.name.as_slice())?,
            number: peripheral.number,
        })?;
    }
    Ok(copies)
}
