//! The nonvolatile arrays that each region of a task may write first.
ghost use Rattle.std.specs.Prelude.{◌≡◌, ◌&&◌, ◌+◌, ◌<◌, ◌≤◌, [], ◌∷◌, ◌++◌, cond, IfOk, OnOk, Contains, length, map, slice_index_or};
ghost use Rattle.std.specs.List.{range_with_len};
ghost use Rattle.task_ast.specs.declared.core_form.Core.{Core as Program};
ghost use Rattle.task_ast.specs.declared.core_form.CoreTask.{CoreTask as Task};
ghost use Rattle.task_ast.specs.WellFormed.{IsWellFormed};
ghost use Rattle.io_depend.specs.Told.{Tells};
ghost use Rattle.region_split.specs.Regions.{is_nonvolatile, is_copy as is_copy_site, copies, regions, first};
ghost use Rattle.region_split.specs.Owners.{owner_is, owner_of, first_arrays, all_first};

use crate::owners::Owners;
use ease_base::NoMemory;
use io_depend::Depends;
use std::alloc::Global;
use std::marker::Model;
use task_ast::{Array, Core, CoreTask, Kind, Site};

/// What `split` tells of a task: for each region the arrays that it may write first.
#[derive(Drop)]
pub struct Regions {
    first: Vec<Vec<u32>>,
}

impl Model for Regions {
    ghost use Rattle.std.specs.Prelude.{ℕ, List, map, length, ◌≤◌};

    ghost Value = { List (List ℕ) };

    ghost view = { λ r. map (λ row. row.items) r.first.items };

    ghost invariant = { λ r. length r.first.items ≤ 4294967295 };
}

// Whether the words of an array are kept over a failure and may change.
fn keeps(kind: Kind) -> bool
    ensures { result ≡ is_nonvolatile kind }
{
    match kind {
        Kind::Nv => true,
        Kind::Const | Kind::Vol => false,
    }
}

// Puts an array at the end of a row where it belongs to it.
fn put_if(array: u32, belongs: bool, row: &mut Vec<u32>) -> Result<(), NoMemory>
    ensures { OnOk result (row.new.items ≡ row.old.items ++ cond belongs (array ∷ []) []) }
{
    if belongs {
        row.push(array)?;
    }
    Ok(())
}

// Whether the array of this number is nonvolatile and a region writes it first.
fn is_first(array: &Array, owners: &Owners, region: u32, number: usize) -> bool
    ensures { result ≡ (is_nonvolatile array.now.kind && owner_is (owner_of owners.now number) region) }
{
    keeps(array.kind) && owners.owns(region, number)
}

// The nonvolatile arrays that a region writes first.
fn first_of(
    alloc: Global,
    arrays: &[Array],
    owners: &Owners,
    region: u32,
) -> Result<Vec<u32>, NoMemory>
    requires { length arrays.now ≤ 4294967295 }
    ensures { IfOk result (λ row. row.items ≡ first_arrays arrays.now owners.now region) }
{
    let mut row = Vec::new(alloc);
    'arrays: for (number, array) in arrays.iter().enumerate() {
        let belongs = is_first(array, owners, region, number);
        put_if(number as u32, belongs, &mut row)?;
    }
    Ok(row)
}

// Whether a copy stands at a site.
fn is_copy(site: &Site) -> bool
    ensures { result ≡ is_copy_site site.now }
{
    match site {
        Site::Copy(_) => true,
        Site::Io(_) | Site::Block(_) => false,
    }
}

// One more than the copies among the sites.
fn count_regions(sites: &[Site]) -> u32
    requires { length sites.now < 4294967295 }
    ensures { result ≡ copies sites.now + 1 }
{
    let mut count = 1;
    'sites: for site in sites {
        if is_copy(site) {
            count += 1;
        }
    }
    count
}

// The nonvolatile arrays that each of so many regions writes first.
fn rows_of(
    alloc: Global,
    arrays: &[Array],
    owners: &Owners,
    count: u32,
) -> Result<Vec<Vec<u32>>, NoMemory>
    requires { length arrays.now ≤ 4294967295 }
    ensures rows { IfOk result (λ rows. map (λ row. row.items) rows.items ≡ map (first_arrays arrays.now owners.now) (range_with_len 0 count)) }
    ensures many { IfOk result (λ rows. length rows.items ≡ count) }
{
    let mut first = Vec::new(alloc);
    'regions: for region in 0..count {
        first.push(first_of(alloc, arrays, owners, region)?)?;
    }
    Ok(first)
}

/// The regions of a task of a program, of which `depend` told this (docs/LANGUAGE.md, "Regions").
pub fn split(alloc: Global, t: &CoreTask, c: &Core, d: &Depends) -> Result<Regions, NoMemory>
    requires well_formed { IsWellFormed c.now }
    requires task { Contains c.now.tasks t.now }
    requires told { Tells c.now t.now d.now }
    ensures { IfOk result (λ r. r ≡ all_first c.now t.now) }
{
    let mut owners = Owners::make(alloc, c.arrays.len())?;
    owners.touch(d, t.body.as_slice());
    let count = count_regions(t.sites.as_slice());
    let first = rows_of(alloc, c.arrays.as_slice(), &owners, count)?;
    Ok(Regions { first })
}

impl Regions {
    fn rows(&self) -> u32
        ensures { result ≡ length self.now }
    {
        let _ = &self.first;
        self.first.len() as u32
    }

    fn row(&self, r: u32) -> &[u32]
        requires { r < length self.now }
        ensures { result.now ≡ slice_index_or self.now r [] }
    {
        self.first[r as usize].as_slice()
    }

    /// How many regions there are: one more than the task has copies.
    pub fn count(&self) -> u32
        ensures count { result ≡ length self.now }
        ensures exact { (c : Program) (t : Task) → self.now ≡ all_first c t → result ≡ regions t }
    {
        self.rows()
    }

    /// The arrays that region r may write first, ascending; r is below the count.
    pub fn first(&self, r: u32) -> &[u32]
        requires { r < length self.now }
        ensures row { result.now ≡ slice_index_or self.now r [] }
        ensures exact { (c : Program) (t : Task) → self.now ≡ all_first c t → result.now ≡ first c t r }
    {
        self.row(r)
    }
}
