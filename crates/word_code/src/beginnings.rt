//! The code of an attempt's beginning, and of saving and restoring.
ghost use Rattle.std.specs.Prelude.{◌≡◌, ◌+◌, ◌*◌, ◌≤◌, ◌<◌, ◌++◌, length, OnOk};
ghost use Rattle.line_code.specs.Areas as areas_of;
ghost use Rattle.line_code.specs.Lines.{bares};
ghost use Rattle.word_code.specs.Beginnings as spec;
ghost use Rattle.word_code.specs.Repeats.{each};

use crate::frame::{Frame, lock_at};
use crate::simple::jump;
use ease_base::NoMemory;
use line_code::{Code, Placed, area_at, pointer_cell};
use task_ast::{Array, Kind};
use word_isa::{Instr, MarkKind, Scheme};

/// The arrays that a region of the task may write first.
pub fn first_of<'a>(f: &Frame<'a>, region: u32) -> &'a [u32]
    ensures { result.now ≡ spec.first_of f.now region }
{
    match f.firsts.get(region as usize) {
        Some(arrays) => arrays.as_slice(),
        None => &[],
    }
}

// Words go from one address on to another.
fn moved(code: &mut Code, from: u16, to: u16, count: u16) -> Result<(), NoMemory>
    requires { (from + count < 65536) × (to + count < 65536) }
    ensures lines { OnOk result (code.new ≡ code.old ++ bares (each (spec.moved_code from to) 0 count)) }
    ensures count { OnOk result (length code.new ≡ length code.old + 2 * count) }
{
    'words: for word in 0..count {
        code.put_all(&[Instr::Ld(1, 0, from + word), Instr::St(1, 0, to + word)])?;
    }
    Ok(())
}

// The words of arrays go from so far above their homes to so far above them.
fn homes(
    code: &mut Code,
    areas: &[Placed],
    from: u16,
    to: u16,
    arrays: &[u32],
) -> Result<(), NoMemory>
    requires places { spec.AreLow areas.now }
    requires shifts { (from ≤ 2048) × (to ≤ 2048) }
    ensures lines { OnOk result (code.new ≡ code.old ++ spec.homes_code areas.now from to arrays.now) }
    ensures count { OnOk result (length code.new ≡ length code.old + spec.homes_size areas.now arrays.now) }
{
    'arrays: for array in arrays {
        let area = area_at(areas, *array);
        moved(code, area.offset + from, area.offset + to, area.room)?;
    }
    Ok(())
}

/// Where the region's lock holds, the copies go home.
pub fn restore(code: &mut Code, f: &Frame, region: u32, next: u32) -> Result<(), NoMemory>
    requires { region ≤ 128 }
    ensures lines { OnOk result (code.new ≡ code.old ++ spec.restore_code f.now region next) }
    ensures count { OnOk result (length code.new ≡ length code.old + spec.homes_size f.now.areas (spec.first_of f.now region) + 6) }
{
    code.put_all(&[
        Instr::Ld(1, 0, lock_at(region)),
        Instr::Eq(1, 13),
        Instr::Eq(1, 0),
        Instr::Jz(1, 1),
        Instr::Jmp(next),
    ])?;
    homes(code, f.areas, 2048, 0, first_of(f, region))?;
    jump(code, next)
}

/// Unless it holds, the homes are copied.
pub fn save(code: &mut Code, f: &Frame, region: u32, next: u32) -> Result<(), NoMemory>
    requires { region ≤ 128 }
    ensures lines { OnOk result (code.new ≡ code.old ++ spec.save_code f.now region next) }
    ensures count { OnOk result (length code.new ≡ length code.old + spec.homes_size f.now.areas (spec.first_of f.now region) + 5) }
{
    code.put_all(&[
        Instr::Ld(1, 0, lock_at(region)),
        Instr::Eq(1, 13),
        Instr::Jz(1, 1),
        Instr::Jmp(next),
    ])?;
    homes(code, f.areas, 0, 2048, first_of(f, region))?;
    jump(code, next)
}

// So many pointers point to nothing.
fn unset(code: &mut Code, count: u32) -> Result<(), NoMemory>
    requires { count ≤ 256 }
    ensures lines { OnOk result (code.new ≡ code.old ++ bares (each spec.unset_code 0 count)) }
    ensures count { OnOk result (length code.new ≡ length code.old + 2 * count) }
{
    'pointers: for pointer in 0..count {
        let cell = pointer_cell(pointer);
        code.put_all(&[Instr::St(0, 15, cell), Instr::St(0, 15, cell + 1)])?;
    }
    Ok(())
}

// Words of RAM, from an offset on.
fn words(code: &mut Code, at: u16, words: &[u32]) -> Result<(), NoMemory>
    requires { at + length words.now < 65536 }
    ensures lines { OnOk result (code.new ≡ code.old ++ bares (spec.words_code at words.now)) }
    ensures count { OnOk result (length code.new ≡ length code.old + 3 * length words.now) }
{
    'words: for (place, word) in words.iter().enumerate() {
        code.number(*word)?;
        code.put(Instr::St(1, 15, at + place as u16))?;
    }
    Ok(())
}

// The declared words of an array where it is volatile, and none else.
fn volatile_words(array: &Array) -> &[u32]
    ensures { result.now ≡ spec.volatile_words array.now.kind array.now.first }
{
    match array.kind {
        Kind::Vol => array.first.as_slice(),
        Kind::Nv | Kind::Const => &[],
    }
}

/// The words of an array where it is nonvolatile and isn't constant, and none else.
pub fn home_words(array: &Array) -> &[u32]
    ensures { result.now ≡ spec.home_words array.now.kind array.now.first }
{
    match array.kind {
        Kind::Nv => array.first.as_slice(),
        Kind::Const | Kind::Vol => &[],
    }
}

// Volatile arrays have their declared words, in order.
fn volatile(code: &mut Code, arrays: &[Array]) -> Result<(), NoMemory>
    requires { areas_of.total arrays.now ≤ 4096 }
    ensures lines { OnOk result (code.new ≡ code.old ++ spec.volatile_code 832 arrays.now) }
    ensures count { OnOk result (length code.new ≡ length code.old + 3 * spec.volatile_count arrays.now) }
{
    let mut at = 832;
    'arrays: for array in arrays {
        let declared = volatile_words(array);
        words(code, at, declared)?;
        at += declared.len() as u16;
    }
    Ok(())
}

/// The number of words in homes that an attempt's beginning brings level.
pub fn level_count(scheme: Scheme, arrays: &[Array]) -> u16
    requires { areas_of.total arrays.now ≤ 4096 }
    ensures count { result ≡ spec.level_count scheme arrays.now }
    ensures few { result ≤ 4096 }
{
    match scheme {
        Scheme::Undo => 0,
        Scheme::Bank => home_count(arrays),
    }
}

// The number of nonvolatile words that aren't constant.
fn home_count(arrays: &[Array]) -> u16
    requires { areas_of.total arrays.now ≤ 4096 }
    ensures count { result ≡ spec.home_count arrays.now }
    ensures few { result ≤ 4096 }
{
    let mut count = 0;
    'arrays: for array in arrays {
        count += home_words(array).len() as u16;
    }
    count
}

/// The number of volatile words.
pub fn volatile_count(arrays: &[Array]) -> u32
    requires { areas_of.total arrays.now ≤ 4096 }
    ensures count { result ≡ spec.volatile_count arrays.now }
    ensures few { result ≤ 4096 }
{
    let mut count = 0;
    'arrays: for array in arrays {
        count += volatile_words(array).len() as u32;
    }
    count
}

// So many homes of the working bank are brought level.
fn level(code: &mut Code, count: u16) -> Result<(), NoMemory>
    requires { count ≤ 4096 }
    ensures lines { OnOk result (code.new ≡ code.old ++ bares (each spec.level_code 0 count)) }
    ensures count { OnOk result (length code.new ≡ length code.old + 2 * count) }
{
    'homes: for word in 0..count {
        code.put_all(&[Instr::Ld(1, 12, 1 + word), Instr::St(1, 14, 1 + word)])?;
    }
    Ok(())
}

/// An attempt begins: the mode, pointers, volatile words, and under `bank` the working bank.
pub fn begin(code: &mut Code, f: &Frame, task: u32) -> Result<(), NoMemory>
    requires { task ≤ 64 }
    ensures lines { OnOk result (code.new ≡ code.old ++ spec.begin_code f.now task) }
    ensures count { OnOk result (length code.new ≡ length code.old + spec.begin_size f.now) }
{
    let sign = f.sign(MarkKind::Begin, task);
    let arrays = f.core.arrays.as_slice();
    code.put_marked(sign, Instr::Ldi(1, task as u16))?;
    code.put(Instr::St(0, 15, 39))?;
    unset(code, f.core.pointers.len() as u32)?;
    volatile(code, arrays)?;
    level(code, level_count(f.scheme, arrays))
}
