//! Names, and the ends of copies.
ghost use Rattle.std.specs.Prelude.{◌≡◌, IsTrue, codes};
ghost use Rattle.std.specs.List.{list_all};
ghost use Rattle.std.specs.Str.{bytes_eq};
ghost use Rattle.report_text.specs.Reading as spec;
ghost use Rattle.task_ast.specs.NameToken as names;

use crate::keyword::is_text;
use crate::line::{Name, ReportPlace};
use crate::numbers::number_in;
use crate::words::{cut, only_part};

/// An end of a copy: `NAME[I]`, `keep`, or `@` and an address.
pub fn place_in<'a>(word: &'a [u8]) -> Option<ReportPlace<'a>>
    ensures { result ≡ spec.place_in word.now }
{
    if is_text(word, b"keep") {
        return Some(ReportPlace::Keep);
    }
    match word.split_first() {
        Some((b'@', digits)) => Some(ReportPlace::Address(number_in(digits)?)),
        _ => cell_in(word),
    }
}

// A word of an array, as `NAME[I]`.
fn cell_in<'a>(word: &'a [u8]) -> Option<ReportPlace<'a>>
    ensures { result ≡ spec.cell_in word.now }
{
    let (name, behind) = cut(word, b'[');
    let (digits, after) = cut(only_part(behind, b'[')?, b']');
    if !is_nothing(only_part(after, b']')?) {
        return None;
    }
    let index = number_in(digits)?;
    if !is_name(name) {
        return None;
    }
    Some(ReportPlace::Cell(Name::new(name), index))
}

fn is_nothing(word: &[u8]) -> bool
    ensures { result ≡ spec.is_nothing word.now }
{
    word.is_empty()
}

/// The name of a peripheral in an issue, or `#` and its number.
pub fn issued_name<'a>(word: &'a [u8]) -> Option<Name<'a>>
    ensures { result ≡ spec.issued_name word.now }
{
    if is_name(word) || is_numbered(word) {
        Some(Name::new(word))
    } else {
        None
    }
}

// Whether the word is `#` and a number.
fn is_numbered(word: &[u8]) -> bool
    ensures { result ≡ spec.is_numbered word.now }
{
    match word.split_first() {
        Some((b'#', digits)) => number_in(digits).is_some(),
        _ => false,
    }
}

/// Whether the word is a letter or `_`, and then letters, digits and `_`.
pub fn is_name(word: &[u8]) -> bool
    ensures { result ≡ names.is_name word.now }
{
    let Some((first, others)) = word.split_first() else {
        return false;
    };
    is_letter(*first) && are_word_bytes(others)
}

fn is_letter(b: u8) -> bool
    ensures { result ≡ names.is_letter b }
{
    b.is_ascii_alphabetic() || b == b'_'
}

fn are_word_bytes(bytes: &[u8]) -> bool
    ensures { result ≡ list_all names.is_word_byte bytes.now }
{
    bytes.iter().all(|b| is_word_byte(*b))
}

fn is_word_byte(b: u8) -> bool
    ensures { result ≡ names.is_word_byte b }
{
    b.is_ascii_alphanumeric() || b == b'_'
}
