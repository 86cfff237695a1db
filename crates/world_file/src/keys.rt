//! The tests of keys and names.
ghost use Rattle.std.specs.Prelude.{◌≡◌, ◌&&◌, codes, string_bytes, is_some, find, option_map};
ghost use Rattle.std.specs.List.{list_all};
ghost use Rattle.std.specs.Str.{bytes_eq};
ghost use Rattle.toml.specs.View.{view, table_view};
ghost use Rattle.world_file.specs.Document as tree;
ghost use Rattle.world_file.specs.Tests as spec;

use crate::tree::{array_at, table_at, value_at};
use ease_base::{List, Peripheral};
use toml::Value;
use toml::value::{Array, Table};

// Whether a key is one of the top table.
fn is_top_key(key: &str) -> bool
    ensures { result ≡ spec.is_top_key key.now }
{
    key == "retained" || key == "power" || key == "readings"
}

// Whether a key is one of a power row.
fn is_row_key(key: &str) -> bool
    ensures { result ≡ spec.is_row_key key.now }
{
    key == "on" || key == "off" || key == "fill"
}

// Whether each key is one of a power row.
fn are_known(row: &Table) -> bool
    ensures { result ≡ list_all (λ e. spec.is_row_key (string_bytes e.0)) row.now.entries }
{
    row.iter().all(|(key, _)| is_row_key(key.as_str()))
}

// Whether the row has `on`, and no key but the three.
fn are_row_keys(row: &Table) -> bool
    ensures { result ≡ spec.are_row_keys (table_view row.now) }
{
    are_known(row) && value_at(row, "on").is_some()
}

// Whether a value that is a table has the keys of a power row.
fn has_row_keys(row: &Value) -> bool
    ensures { result ≡ spec.has_row_keys (view row.now) }
{
    match row.as_table() {
        Some(table) => are_row_keys(table),
        None => true,
    }
}

// Whether each value of the array does.
fn have_row_keys(rows: &Array) -> bool
    ensures { result ≡ list_all (λ v. spec.has_row_keys (view v)) rows.now.items }
{
    rows.iter().all(has_row_keys)
}

// Whether each key is one of the top table.
fn are_top_keys(top: &Table) -> bool
    ensures { result ≡ list_all (λ e. spec.is_top_key (string_bytes e.0)) top.now.entries }
{
    top.iter().all(|(key, _)| is_top_key(key.as_str()))
}

// Whether no power row has an unknown key or lacks `on`.
fn has_row_keys_in(top: &Table) -> bool
    ensures { result ≡ list_all spec.has_row_keys (tree.values_at (codes "power") (table_view top.now)) }
{
    match array_at(top, "power") {
        Some(rows) => have_row_keys(rows),
        None => true,
    }
}

/// Whether no key of the top table or of a power row is unknown, and no row lacks `on`.
pub fn has_known_keys(top: &Table) -> bool
    ensures { result ≡ spec.has_known_keys (table_view top.now) }
{
    are_top_keys(top) && has_row_keys_in(top)
}

/// The number of the peripheral of this name.
pub fn number_of(names: &List<Peripheral>, key: &[u8]) -> Option<u8>
    ensures { result ≡ spec.number_of names.now key.now }
{
    let found = names.as_slice().iter().find(|p| p.name.as_slice() == key)?;
    Some(found.number)
}

// Whether each key is a peripheral's name.
fn are_names(names: &List<Peripheral>, readings: &Table) -> bool
    ensures { result ≡ list_all (λ e. is_some (spec.number_of names.now (string_bytes e.0))) readings.now.entries }
{
    readings.iter().all(|(key, _)| number_of(names, key.as_str().as_bytes()).is_some())
}

/// Whether each key of the readings is a peripheral's name.
pub fn has_known_names(names: &List<Peripheral>, top: &Table) -> bool
    ensures { result ≡ spec.has_known_names names.now (table_view top.now) }
{
    match table_at(top, "readings") {
        Some(readings) => are_names(names, readings),
        None => true,
    }
}
