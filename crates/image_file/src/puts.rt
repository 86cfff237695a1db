//! The lists of an image as bytes, each behind its length.
ghost use Rattle.std.specs.Prelude.{◌≡◌, ◌++◌, ◌<◌, ◌^◌, OnOk, length, map};
ghost use Rattle.image_file.specs.Fields.{number, listed};
ghost use Rattle.image_file.specs.Layout.{symbol, peripheral, mark, raw_symbol, raw_mark};

use crate::entries::{put_mark, put_peripheral, put_symbol};
use crate::fields::{put_u16, put_u32};
use ease_base::{NoMemory, Peripheral, Text};
use word_isa::{Mark, Symbol};

/// Puts words behind their number.
#[tactic(auto, using(std::proofs::Common::append_assoc))]
pub fn put_words(out: &mut Text, words: &[u32]) -> Result<(), NoMemory>
    requires { length words.now < 2 ^ 32 }
    ensures { OnOk result (out.new ≡ out.old ++ (listed 4 (number 4)).spell words.now) }
{
    put_u32(out, words.len() as u32)?;
    'items: for word in words {
        put_u32(out, *word)?;
    }
    Ok(())
}

/// Puts symbols behind their number.
#[tactic(auto, using(std::proofs::Common::append_assoc))]
pub fn put_symbols(out: &mut Text, symbols: &[Symbol]) -> Result<(), NoMemory>
    requires { length symbols.now < 2 ^ 16 }
    ensures { OnOk result (out.new ≡ out.old ++ (listed 2 symbol).spell (map raw_symbol symbols.now)) }
{
    put_u16(out, symbols.len() as u16)?;
    'items: for s in symbols {
        put_symbol(out, s)?;
    }
    Ok(())
}

/// Puts peripherals behind their number.
#[tactic(auto, using(std::proofs::Common::append_assoc))]
pub fn put_peripherals(out: &mut Text, peripherals: &[Peripheral]) -> Result<(), NoMemory>
    requires { length peripherals.now < 2 ^ 16 }
    ensures { OnOk result (out.new ≡ out.old ++ (listed 2 peripheral).spell peripherals.now) }
{
    put_u16(out, peripherals.len() as u16)?;
    'items: for p in peripherals {
        put_peripheral(out, p)?;
    }
    Ok(())
}

/// Puts the marks of an image of this version behind their number.
#[tactic(auto, using(std::proofs::Common::append_assoc))]
pub fn put_marks(out: &mut Text, version: u8, marks: &[Mark]) -> Result<(), NoMemory>
    requires { length marks.now < 2 ^ 32 }
    ensures { OnOk result (out.new ≡ out.old ++ (listed 4 (mark version)).spell (map raw_mark marks.now)) }
{
    put_u32(out, marks.len() as u32)?;
    'items: for m in marks {
        put_mark(out, version, *m)?;
    }
    Ok(())
}
