//! A row of 128 bits for each array, pointer and site of a task; bit k - 1 stands for the I/O site k.
ghost use Rattle.std.specs.Prelude.{◌≡◌, ◌+◌, ◌<◌, [], ◌∷◌, OnOk, IfOk, slice_index, replicate, length};
ghost use Rattle.io_depend.specs.Rows.{Rows as Held, with_bits, with_all, with_each, own_bit, in_arrays, in_pointer, in_site, block_left, block_entered, other_branch, both_branches, no_rows, branch_of};

use ease_base::NoMemory;
use std::alloc::Global;
use std::marker::Model;

/// The rows of a pass, and the bits of all sites that it found since a block began.
#[derive(Drop)]
pub struct Rows {
    arrays: Vec<u128>,
    pointers: Vec<u128>,
    sites: Vec<u128>,
    found: u128,
}

impl Model for Rows {
    ghost use Rattle.io_depend.specs.Rows.{Rows as Held};

    ghost Value = { Held };

    ghost view = { λ r. record { arrays = r.arrays.items; pointers = r.pointers.items; sites = r.sites.items; found = r.found } };
}

/// The rows of arrays and pointers, kept over a branch.
#[derive(Drop)]
pub struct Branch {
    arrays: Vec<u128>,
    pointers: Vec<u128>,
}

impl Model for Branch {
    ghost use Rattle.io_depend.specs.Rows.{Branch as Kept};

    ghost Value = { Kept };

    ghost view = { λ b. record { arrays = b.arrays.items; pointers = b.pointers.items } };
}

/// The own bit of an I/O site; none for the number 0, and none past 128.
pub fn own_bit(site: u32) -> u128
    ensures { result ≡ own_bit site }
{
    if 0 < site && site <= 128 {
        1 << (site - 1)
    } else {
        0
    }
}

// So many empty rows.
fn empty(alloc: Global, count: usize) -> Result<Vec<u128>, NoMemory>
    ensures { IfOk result (λ rows. rows.items ≡ replicate count 0) }
{
    let mut rows = Vec::new(alloc);
    'rows: for _ in 0..count {
        rows.push(0)?;
    }
    Ok(rows)
}

// Puts bits into a row; does nothing where there is no such row.
fn join(rows: &mut Vec<u128>, number: usize, row: u128)
    ensures { rows.new.items ≡ with_bits rows.old.items number row }
{
    if number < rows.len() {
        rows[number] = rows[number] | row;
    }
}

// Puts bits into the rows of several numbers.
fn join_each(rows: &mut Vec<u128>, numbers: &[u32], row: u128)
    ensures { rows.new.items ≡ with_each rows.old.items numbers.now row }
{
    'numbers: for number in numbers {
        join(rows, *number as usize, row);
    }
}

// Puts into each row the bits of another's row of the same number.
fn join_all(rows: &mut Vec<u128>, others: &[u128])
    ensures { rows.new.items ≡ with_all rows.old.items 0 others.now }
{
    'others: for (number, row) in others.iter().enumerate() {
        join(rows, number, *row);
    }
}

// A row; empty where there is none.
fn row_of(rows: &[u128], number: u32) -> u128
    ensures { result ≡ slice_index rows.now number }
{
    match rows.get(number as usize) {
        Some(row) => *row,
        None => 0,
    }
}

impl Rows {
    /// Empty rows of so many arrays, pointers and sites.
    pub fn make(
        alloc: Global,
        arrays: usize,
        pointers: usize,
        sites: usize,
    ) -> Result<Rows, NoMemory>
        requires { sites < 4294967295 }
        ensures { IfOk result (λ rows. rows ≡ no_rows arrays pointers sites) }
    {
        Ok(Rows {
            arrays: empty(alloc, arrays)?,
            pointers: empty(alloc, pointers)?,
            sites: empty(alloc, sites + 1)?,
            found: 0,
        })
    }

    pub fn array(&self, number: u32) -> u128
        ensures { result ≡ slice_index self.now.arrays number }
    {
        row_of(self.arrays.as_slice(), number)
    }

    pub fn pointer(&self, number: u32) -> u128
        ensures { result ≡ slice_index self.now.pointers number }
    {
        row_of(self.pointers.as_slice(), number)
    }

    /// Puts bits into the rows of arrays.
    pub fn into_arrays(&mut self, arrays: &[u32], row: u128)
        ensures { self.new ≡ in_arrays self.old arrays.now row }
    {
        join_each(&mut self.arrays, arrays, row);
    }

    /// Puts bits into the row of one array.
    pub fn into_array(&mut self, array: u32, row: u128)
        ensures { self.new ≡ in_arrays self.old (array ∷ []) row }
    {
        join(&mut self.arrays, array as usize, row);
    }

    /// Puts bits into the row of a pointer.
    pub fn into_pointer(&mut self, pointer: u32, row: u128)
        ensures { self.new ≡ in_pointer self.old pointer row }
    {
        join(&mut self.pointers, pointer as usize, row);
    }

    /// Notes that a site depends on the sites of these bits.
    pub fn into_site(&mut self, site: u32, row: u128)
        ensures { self.new ≡ in_site self.old site row }
    {
        join(&mut self.sites, site as usize, row);
        self.found = self.found | row;
    }

    /// Enters a block: nothing is found in it yet. Gives what was found outside.
    pub fn enter_block(&mut self) -> u128
        ensures outside { result ≡ self.old.found }
        ensures entered { self.new ≡ block_entered self.old }
    {
        let outside = self.found;
        self.found = 0;
        outside
    }

    /// Leaves a block, whose site depends on what is around it and on what was found in it.
    pub fn leave_block(&mut self, around: u128, site: u32, outside: u128)
        ensures { self.new ≡ block_left around site outside self.old }
    {
        let row = around | self.found;
        self.into_site(site, row);
        self.found = self.found | outside;
    }

    /// A copy of the rows of arrays and pointers.
    pub fn branch(&self, alloc: Global) -> Result<Branch, NoMemory>
        ensures { IfOk result (λ b. b ≡ branch_of self.now) }
    {
        Ok(Branch {
            arrays: Vec::from_slice(alloc, self.arrays.as_slice())?,
            pointers: Vec::from_slice(alloc, self.pointers.as_slice())?,
        })
    }

    /// Goes back to the rows of a branch, and gives those that stood here.
    pub fn swap(&mut self, branch: Branch) -> Branch
        ensures here { self.new ≡ other_branch branch self.old }
        ensures there { result ≡ branch_of self.old }
    {
        let arrays = std::mem::replace(&mut self.arrays, branch.arrays);
        let pointers = std::mem::replace(&mut self.pointers, branch.pointers);
        Branch { arrays, pointers }
    }

    /// Puts in the bits of the other branch.
    pub fn join_branch(&mut self, other: &Branch)
        ensures { self.new ≡ both_branches other.now self.old }
    {
        join_all(&mut self.arrays, other.arrays.as_slice());
        join_all(&mut self.pointers, other.pointers.as_slice());
    }

    /// The rows of the sites, by their numbers; the row 0 is none's.
    pub fn into_sites(self) -> Vec<u128>
        ensures { result.items ≡ self.sites }
    {
        self.sites
    }
}
