//! The parts of lines: names and numbers, each after a space.
ghost use Rattle.std.specs.Prelude.{◌≡◌, ◌++◌, ◌∷◌, OnOk, decimal, slice_get};
ghost use Rattle.site_account.specs.Account.{spaced, numbers, listed, names, array_name as name_of, peripheral_name as called, ann_text};

use ease_base::{List, NoMemory, Peripheral, Text, put_number};
use task_ast::{Ann, Array};

/// A text after a space.
pub fn put_spaced(out: &mut Text, text: &[u8]) -> Result<(), NoMemory>
    ensures { OnOk result (out.new ≡ out.old ++ spaced text.now) }
{
    out.push(b' ')?;
    out.extend(text)
}

/// A text, and a number behind it.
pub fn put_numbered(out: &mut Text, text: &[u8], n: u64) -> Result<(), NoMemory>
    ensures { OnOk result (out.new ≡ out.old ++ (text.now ++ decimal n)) }
{
    out.extend(text)?;
    put_number(out, n)
}

/// Numbers, each after a space.
pub fn put_numbers(out: &mut Text, row: &[u32]) -> Result<(), NoMemory>
    ensures { OnOk result (out.new ≡ out.old ++ numbers row.now) }
{
    'numbers: for number in row {
        out.push(b' ')?;
        put_number(out, u64::from(*number))?;
    }
    Ok(())
}

/// A word with numbers behind it, where there are any.
pub fn put_listed(out: &mut Text, word: &[u8], row: &[u32]) -> Result<(), NoMemory>
    ensures { OnOk result (out.new ≡ out.old ++ listed word.now row.now) }
{
    if row.is_empty() {
        return Ok(());
    }
    out.extend(word)?;
    put_numbers(out, row)
}

// The name of an array; none where it isn't there.
fn array_name(arrays: &List<Array>, number: u32) -> &[u8]
    ensures { result.now ≡ name_of (slice_get arrays.now number) }
{
    match arrays.get(number as usize) {
        Some(array) => array.name.as_slice(),
        None => &[],
    }
}

/// The name of a peripheral; none where it isn't there.
pub fn peripheral_name(peripherals: &List<Peripheral>, number: u32) -> &[u8]
    ensures { result.now ≡ called (slice_get peripherals.now number) }
{
    match peripherals.get(number as usize) {
        Some(peripheral) => peripheral.name.as_slice(),
        None => &[],
    }
}

/// The names of arrays, each after a space.
pub fn put_names(out: &mut Text, arrays: &List<Array>, row: &[u32]) -> Result<(), NoMemory>
    ensures { OnOk result (out.new ≡ out.old ++ names arrays.now row.now) }
{
    'arrays: for number in row {
        put_spaced(out, array_name(arrays, *number))?;
    }
    Ok(())
}

/// An annotation.
pub fn put_ann(out: &mut Text, ann: Ann) -> Result<(), NoMemory>
    ensures { OnOk result (out.new ≡ out.old ++ ann_text ann) }
{
    match ann {
        Ann::Single => out.extend(b" single"),
        Ann::Timely(ticks) => put_numbered(out, b" timely ", u64::from(ticks)),
        Ann::Always => out.extend(b" always"),
    }
}
