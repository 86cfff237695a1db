//! The tests of a value, whatever table it stands in.
ghost use Rattle.std.specs.Prelude.{◌≡◌, codes, true};
ghost use Rattle.std.specs.List.{list_all};
ghost use Rattle.std.specs.Option.{option_map_or};
ghost use Rattle.toml.specs.Data.{get_member};
ghost use Rattle.toml.specs.View.{view, array_view, table_view};
ghost use Rattle.world_file.specs.Document as tree;
ghost use Rattle.world_file.specs.Tests as spec;

use crate::tree::value_at;
use toml::Value;
use toml::value::{Array, Table};

/// A whole number from 0 to 4294967295; None for any other value.
pub fn word_in(value: &Value) -> Option<u32>
    ensures { result ≡ tree.word_in (view value.now) }
{
    let n = value.as_integer()?;
    u32::try_from(n).ok()
}

// Whether a value is a word.
fn is_word(value: &Value) -> bool
    ensures { result ≡ spec.is_word (view value.now) }
{
    word_in(value).is_some()
}

// Whether each value of the array is a word.
fn has_words(array: &Array) -> bool
    ensures { result ≡ list_all (λ v. spec.is_word (view v)) array.now.items }
{
    array.iter().all(is_word)
}

// Whether it is an array of words.
fn are_words(value: &Value) -> bool
    ensures { result ≡ spec.are_words (view value.now) }
{
    match value.as_array() {
        Some(array) => has_words(array),
        None => false,
    }
}

// Whether each value of the table is a word.
fn has_word_values(table: &Table) -> bool
    ensures { result ≡ list_all (λ e. spec.is_word (view e.1)) table.now.entries }
{
    table.iter().all(|(_, value)| is_word(value))
}

// Whether it is a table of words.
fn is_row(value: &Value) -> bool
    ensures { result ≡ spec.is_row (view value.now) }
{
    match value.as_table() {
        Some(table) => has_word_values(table),
        None => false,
    }
}

// Whether each value of the array is such a table.
fn each_is_row(array: &Array) -> bool
    ensures { result ≡ list_all (λ v. spec.is_row (view v)) array.now.items }
{
    array.iter().all(is_row)
}

// Whether it is an array of such tables.
fn are_rows(value: &Value) -> bool
    ensures { result ≡ spec.are_rows (view value.now) }
{
    match value.as_array() {
        Some(array) => each_is_row(array),
        None => false,
    }
}

// Whether each value of the table is an array of words.
fn each_are_words(table: &Table) -> bool
    ensures { result ≡ list_all (λ e. spec.are_words (view e.1)) table.now.entries }
{
    table.iter().all(|(_, values)| are_words(values))
}

// Whether it is a table of arrays of words.
fn are_readings(value: &Value) -> bool
    ensures { result ≡ spec.are_readings (view value.now) }
{
    match value.as_table() {
        Some(table) => each_are_words(table),
        None => false,
    }
}

// Whether `power` is absent or an array of tables of words.
fn has_good_rows(top: &Table) -> bool
    ensures { result ≡ option_map_or spec.are_rows (get_member (codes "power") (table_view top.now)) true }
{
    match value_at(top, "power") {
        Some(value) => are_rows(value),
        None => true,
    }
}

// Whether `retained` is absent or an array of words.
fn has_good_words(top: &Table) -> bool
    ensures { result ≡ option_map_or spec.are_words (get_member (codes "retained") (table_view top.now)) true }
{
    match value_at(top, "retained") {
        Some(value) => are_words(value),
        None => true,
    }
}

// Whether `readings` is absent or a table of arrays of words.
fn has_good_readings(top: &Table) -> bool
    ensures { result ≡ option_map_or spec.are_readings (get_member (codes "readings") (table_view top.now)) true }
{
    match value_at(top, "readings") {
        Some(value) => are_readings(value),
        None => true,
    }
}

/// Whether each of the three keys is absent or has what it has to.
pub fn has_good_values(top: &Table) -> bool
    ensures { result ≡ spec.has_good_values (table_view top.now) }
{
    has_good_rows(top) && has_good_words(top) && has_good_readings(top)
}
