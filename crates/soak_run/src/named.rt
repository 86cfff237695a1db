//! The word of a nonvolatile variable, by its name.
ghost use Rattle.std.specs.Prelude.{◌≡◌, ◌&&◌};
ghost use Rattle.std.specs.Str.{bytes_eq};
ghost use Rattle.soak_run.specs.Ends as spec;
ghost use Rattle.word_machine.specs.Held.{core_of};

use task_ast::Kind;
use word_isa::{Image, Symbol};
use word_machine::Machine;

/// The first word of the nonvolatile variable of this name, in the bank in use; 0 where there is none.
pub fn word_named(machine: &Machine, image: &Image, name: &[u8]) -> u32
    ensures { result ≡ spec.word_named name.now image.now (core_of machine.now.held).store }
{
    let bank = word_at(machine, u64::from(image.state)) % 2;
    let offset = u64::from(bank) * u64::from(image.stride);
    match base_of(image.symbols.as_slice(), name) {
        Some(base) => word_at(machine, u64::from(base) + offset),
        None => 0,
    }
}

// Where the first nonvolatile symbol of a name begins.
fn base_of(symbols: &[Symbol], name: &[u8]) -> Option<u32>
    ensures { result ≡ spec.base_of name.now symbols.now }
{
    'symbols: for symbol in symbols {
        if is_named(symbol, name) {
            return Some(symbol.base);
        }
    }
    None
}

// Whether a symbol is nonvolatile and has this name.
fn is_named(symbol: &Symbol, name: &[u8]) -> bool
    ensures { result ≡ (spec.is_nonvolatile symbol.now.kind && bytes_eq symbol.now.name name.now) }
{
    match symbol.kind {
        Kind::Nv => symbol.name.as_slice() == name,
        Kind::Const | Kind::Vol => false,
    }
}

// The word at an address, 0 where no memory has it.
fn word_at(machine: &Machine, at: u64) -> u32
    ensures { result ≡ (core_of machine.now.held).store at }
{
    match u32::try_from(at) {
        Ok(at) => machine.word(at).unwrap_or(0),
        Err(_) => 0,
    }
}
