//! Which bytes may name a symbol or a peripheral.
ghost use Rattle.std.specs.Prelude.{◌≡◌, ◌↔◌, IsTrue, not, nat_le, length};
ghost use Rattle.std.specs.List.{list_all};
ghost use Rattle.task_ast.specs.NameToken as language;
ghost use Rattle.word_isa.specs.Names as spec;

use op_table::reserved;
use std::str;

/// Whether the bytes are a name of 1 to 32 bytes, a letter or `_` and then letters, digits and `_`, that is no reserved word
/// of the language. Takes no memory.
#[tactic(auto, using(crate::proofs::NameLemmas::symbol_name_exact), unfolding(crate::specs::Names::is_symbol_name))]
pub fn is_symbol_name(name: &[u8]) -> bool
    ensures value { result ≡ spec.is_symbol_name name.now }
    ensures exact { IsTrue result ↔ spec.IsSymbolName name.now }
{
    if !is_name_token(name) {
        return false;
    }
    if !is_short(name) {
        return false;
    }
    is_free(name)
}

fn is_short(name: &[u8]) -> bool
    ensures { result ≡ nat_le (length name.now) 32 }
{
    name.len() <= 32
}

// Whether a name is no reserved word.
fn is_free(name: &[u8]) -> bool
    requires { IsTrue (spec.is_name_token name.now) }
    ensures { result ≡ not (spec.is_reserved name.now) }
{
    match str::from_utf8(name) {
        Ok(text) => !reserved(text),
        Err(_) => unreachable!(),
    }
}

// Whether the bytes are a letter or `_`, then letters, digits and `_`.
#[tactic(auto, unfolding(crate::specs::Names::is_name_token))]
fn is_name_token(name: &[u8]) -> bool
    ensures { result ≡ spec.is_name_token name.now }
{
    let Some((first, rest)) = name.split_first() else {
        return false;
    };
    is_letter(*first) && are_word_bytes(rest)
}

fn are_word_bytes(bytes: &[u8]) -> bool
    ensures { result ≡ list_all language.is_word_byte bytes.now }
{
    bytes.iter().all(|b| is_word_byte(*b))
}

fn is_letter(b: u8) -> bool
    ensures { result ≡ language.is_letter b }
{
    b.is_ascii_alphabetic() || b == b'_'
}

fn is_word_byte(b: u8) -> bool
    ensures { result ≡ language.is_word_byte b }
{
    b.is_ascii_alphanumeric() || b == b'_'
}
