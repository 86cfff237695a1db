//! Tables that can't hold two equal codes or two equal names.
ghost use Rattle.std.specs.Prelude.{◌≡◌, ◌↔◌, ◌<◌, ◌⊎◌, ℕ, eqb, None, Some, IfSome, IsTrue, length};
ghost use Rattle.std.specs.List.{position};
ghost use Rattle.std.specs.Str.{bytes_eq};
ghost use Rattle.op_table.specs.Places.{IsAt, repeats};
ghost use Rattle.op_table.specs.Table.{HasTwins, codes, names, entries};

use std::marker::Model;

/// One row: its code, its name, and a number for the form in which what it stands for is written.
#[derive(Clone, Copy)]
pub struct Row<'a> {
    pub code: u8,
    pub name: &'a str,
    pub form: u8,
}

/// N rows with distinct codes and distinct names. They are held as a slice, since the borrow checker covers no array of
/// references whose length is a parameter.
#[derive(Drop)]
pub struct Table<'a, const N: usize> {
    rows: &'a [Row<'a>],
}

impl<'a, const N: usize> Model for Table<'a, N> {
    ghost use Rattle.std.specs.Prelude.{List, ◌≡◌, length};
    ghost use Rattle.op_table.specs.Table.{Entry, HasTwins, entries};

    ghost Value = { List Entry };

    ghost view = { λ t. entries t.rows.now };

    ghost invariant = { λ t. (length t.rows.now ≡ N) × ¬ HasTwins (entries t.rows.now) };
}

impl<'a, const N: usize> Table<'a, N> {
    /// The table of these N rows; None exactly where two of them have the same code or the same name.
    pub fn new(rows: &'a [Row<'a>]) -> Option<Table<'a, N>>
        requires { length rows.now ≡ N }
        ensures made { IfSome result (λ table. table ≡ entries rows.now) }
        ensures refused { (result ≡ None) ↔ HasTwins (entries rows.now) }
    {
        if has_twins(rows) {
            return None;
        }
        Some(Table { rows })
    }

    /// The place of the row with this code; None exactly where no row has it.
    pub fn find_code(&self, code: u8) -> Option<usize>
        ensures found { (place : ℕ) → (result ≡ Some place) ↔ IsAt (codes self.now) place code }
        ensures missed { (result ≡ None) ↔ ((place : ℕ) → ¬ IsAt (codes self.now) place code) }
        ensures within { IfSome result (λ place. place < N) }
    {
        code_place(self.rows, code)
    }

    /// The place of the row with this name; None exactly where no row has it.
    pub fn find_name(&self, name: &str) -> Option<usize>
        ensures found { (place : ℕ) → (result ≡ Some place) ↔ IsAt (names self.now) place name.now }
        ensures missed { (result ≡ None) ↔ ((place : ℕ) → ¬ IsAt (names self.now) place name.now) }
        ensures within { IfSome result (λ place. place < N) }
    {
        name_place(self.rows, name)
    }
}

// The first place of the code.
fn code_place(rows: &[Row], code: u8) -> Option<usize>
    ensures { result ≡ position (λ row. eqb row.code code) rows.now }
{
    rows.iter().position(|row| row.code == code)
}

// The first place of the name.
fn name_place(rows: &[Row], name: &str) -> Option<usize>
    ensures { result ≡ position (λ row. bytes_eq row.name.now name.now) rows.now }
{
    rows.iter().position(|row| row.name == name)
}

// Whether two rows have the same code or the same name. The codes come first: of more than 256 rows two have the same.
fn has_twins(rows: &[Row]) -> bool
    ensures { IsTrue result ↔ HasTwins (entries rows.now) }
{
    if codes_repeat(rows) {
        return true;
    }
    names_repeat(rows)
}

// Whether a code stands at two places. It goes no deeper than there are distinct codes.
fn codes_repeat(rows: &[Row]) -> bool
    ensures { result ≡ repeats eqb (codes (entries rows.now)) }
{
    let Some((row, behind)) = rows.split_first() else {
        return false;
    };
    if code_place(behind, row.code).is_some() {
        return true;
    }
    codes_repeat(behind)
}

// Whether a name stands at two places. It goes as deep as there are rows, and is asked only where the codes are distinct.
fn names_repeat(rows: &[Row]) -> bool
    ensures { result ≡ repeats bytes_eq (names (entries rows.now)) }
{
    let Some((row, behind)) = rows.split_first() else {
        return false;
    };
    if name_place(behind, row.name).is_some() {
        return true;
    }
    names_repeat(behind)
}
