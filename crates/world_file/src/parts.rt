//! The parts of a world, where the tests have passed.
ghost use Rattle.std.specs.Prelude.{◌≡◌, true, codes, is_some, map, string_bytes, IfOk};
ghost use Rattle.std.specs.List.{All, list_all};
ghost use Rattle.devices.specs.World.{AreDistinct, IsFeed};
ghost use Rattle.toml.specs.View.{view, array_view, table_view};
ghost use Rattle.world_file.specs.Document as tree;
ghost use Rattle.world_file.specs.Document.{pair_of};
ghost use Rattle.world_file.specs.Peripherals.{AreApart};
ghost use Rattle.world_file.specs.Tests as tests;
ghost use Rattle.world_file.specs.WorldFile as spec;

use crate::keys::number_of;
use crate::tree::{array_at, table_at, value_at};
use crate::values::word_in;
use devices::{Feed, PowerRow, World};
use ease_base::{List, NoMemory, Peripheral, Words};
use std::alloc::Global;
use toml::Value;
use toml::value::{Array, Table};

// The word that a value is, 0 where it is none.
fn word_of(value: &Value) -> u32
    ensures { result ≡ spec.word_of (view value.now) }
{
    word_in(value).unwrap_or(0)
}

// The word at a key, 0 where none stands there.
fn word_at(row: &Table, key: &str) -> u32
    ensures { result ≡ spec.word_at key.now (table_view row.now) }
{
    match value_at(row, key) {
        Some(value) => word_of(value),
        None => 0,
    }
}

// The power row of a table.
fn row_in(row: &Table) -> PowerRow
    ensures { result ≡ spec.row_in (table_view row.now) }
{
    PowerRow {
        on: word_at(row, "on"),
        off: word_at(row, "off"),
        fill: word_at(row, "fill"),
    }
}

// The power row of a value; all 0 where it is no table.
fn row_of(value: &Value) -> PowerRow
    ensures { result ≡ spec.row_of (view value.now) }
{
    match value.as_table() {
        Some(row) => row_in(row),
        None => PowerRow {
            on: 0,
            off: 0,
            fill: 0,
        },
    }
}

// The words of an array.
fn words_in(alloc: Global, array: &Array) -> Result<Words, NoMemory>
    ensures { IfOk result (λ ws. ws ≡ map (λ v. spec.word_of (view v)) array.now.items) }
{
    let mut words = Words::new(alloc);
    'values: for value in array {
        words.push(word_of(value))?;
    }
    Ok(words)
}

// The power rows of an array.
fn rows_in(alloc: Global, array: &Array) -> Result<List<PowerRow>, NoMemory>
    ensures { IfOk result (λ rows. rows ≡ map (λ v. spec.row_of (view v)) array.now.items) }
{
    let mut rows = List::new(alloc);
    'values: for value in array {
        rows.push(row_of(value))?;
    }
    Ok(rows)
}

// The words of a value, none where it is no array.
fn words_of(alloc: Global, value: &Value) -> Result<Words, NoMemory>
    ensures { IfOk result (λ ws. ws ≡ spec.words_of (view value.now)) }
{
    match value.as_array() {
        Some(array) => words_in(alloc, array),
        None => Ok(Words::new(alloc)),
    }
}

// The feed of a reading, by its name and its values.
fn feed_of(
    alloc: Global,
    names: &List<Peripheral>,
    key: &str,
    value: &Value,
) -> Result<Feed, NoMemory>
    ensures is { IfOk result (λ f. f ≡ spec.feed_of names.now (key.now, view value.now)) }
    ensures fits { IfOk result IsFeed }
{
    Ok(Feed {
        number: number_of(names, key.as_bytes()).unwrap_or(0),
        values: words_of(alloc, value)?,
    })
}

// The feeds of the readings, in the order of their names. Known names of peripherals that are apart have feeds of
// different numbers.
fn feeds_in(
    alloc: Global,
    names: &List<Peripheral>,
    readings: &Table,
) -> Result<List<Feed>, NoMemory>
    requires apart { AreApart names.now }
    requires known { list_all (λ e. is_some (tests.number_of names.now (string_bytes e.0))) readings.now.entries ≡ true }
    ensures is { IfOk result (λ fs. fs ≡ map (λ e. spec.feed_of names.now (pair_of e)) readings.now.entries) }
    ensures distinct { IfOk result AreDistinct }
    ensures fits { IfOk result (All IsFeed) }
{
    let mut feeds = List::new(alloc);
    'pairs: for (key, value) in readings.iter() {
        feeds.push(feed_of(alloc, names, key.as_str(), value)?)?;
    }
    Ok(feeds)
}

// The power rows of a top table.
fn rows_of(alloc: Global, top: &Table) -> Result<List<PowerRow>, NoMemory>
    ensures { IfOk result (λ rows. rows ≡ spec.rows_of (table_view top.now)) }
{
    match array_at(top, "power") {
        Some(array) => rows_in(alloc, array),
        None => Ok(List::new(alloc)),
    }
}

// The readings of an unbroken run.
fn retained_of(alloc: Global, top: &Table) -> Result<Words, NoMemory>
    ensures { IfOk result (λ ws. ws ≡ map spec.word_of (tree.values_at (codes "retained") (table_view top.now))) }
{
    match array_at(top, "retained") {
        Some(array) => words_in(alloc, array),
        None => Ok(Words::new(alloc)),
    }
}

// The feeds of a top table.
fn feeds_of(alloc: Global, names: &List<Peripheral>, top: &Table) -> Result<List<Feed>, NoMemory>
    requires apart { AreApart names.now }
    requires known { tests.has_known_names names.now (table_view top.now) ≡ true }
    ensures is { IfOk result (λ fs. fs ≡ spec.feeds_of names.now (table_view top.now)) }
    ensures distinct { IfOk result AreDistinct }
    ensures fits { IfOk result (All IsFeed) }
{
    match table_at(top, "readings") {
        Some(readings) => feeds_in(alloc, names, readings),
        None => Ok(List::new(alloc)),
    }
}

/// The world of a table that passes the tests of keys, values and names.
pub fn table_world(alloc: Global, names: &List<Peripheral>, top: &Table) -> Result<World, NoMemory>
    requires apart { AreApart names.now }
    requires known { tests.has_known_names names.now (table_view top.now) ≡ true }
    ensures is { IfOk result (λ w. w ≡ spec.table_world names.now (table_view top.now)) }
    ensures distinct { IfOk result (λ w. AreDistinct w.feeds) }
    ensures fits { IfOk result (λ w. All IsFeed w.feeds) }
{
    Ok(World {
        power: rows_of(alloc, top)?,
        feeds: feeds_of(alloc, names, top)?,
        retained: retained_of(alloc, top)?,
    })
}
