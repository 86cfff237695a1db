//! Which region of a task writes each array first, by one pass over its statements.
ghost use Rattle.std.specs.Prelude.{◌≡◌, [], ◌∷◌, IfOk, None, map, replicate};
ghost use Rattle.task_ast.specs.Pointing.{target_arrays, reading_arrays, end_arrays};
ghost use Rattle.io_depend.specs.Rows.{listed};
ghost use Rattle.region_split.specs.Regions.{may_write, next_region, touches};
ghost use Rattle.region_split.specs.Owners.{Owners as Held, unowned, owner_of, owner_is, touched_by, touched, all_touched};

use ease_base::NoMemory;
use io_depend::Depends;
use std::alloc::Global;
use std::marker::Model;
use task_ast::{CoreEnd, CoreStmt, CoreTarget};

/// The region that a task is in, and for each array the region that may write it first.
#[derive(Drop)]
pub struct Owners {
    region: u32,
    first: Vec<Option<u32>>,
}

impl Model for Owners {
    ghost use Rattle.region_split.specs.Owners.{Owners as Held};

    ghost Value = { Held };

    ghost view = { λ o. record { region = o.region; first = o.first.items } };
}

// So many arrays without an owner.
fn nobody(alloc: Global, arrays: usize) -> Result<Vec<Option<u32>>, NoMemory>
    ensures { IfOk result (λ first. first.items ≡ replicate arrays None) }
{
    let mut first = Vec::new(alloc);
    'arrays: for _ in 0..arrays {
        first.push(None)?;
    }
    Ok(first)
}

impl Owners {
    /// Before a task's first statement.
    pub fn make(alloc: Global, arrays: usize) -> Result<Owners, NoMemory>
        ensures { IfOk result (λ o. o ≡ unowned arrays) }
    {
        Ok(Owners {
            region: 0,
            first: nobody(alloc, arrays)?,
        })
    }

    /// Whether a region writes an array first.
    pub fn owns(&self, region: u32, array: usize) -> bool
        ensures { result ≡ owner_is (owner_of self.now array) region }
    {
        match self.first.get(array) {
            Some(Some(owner)) => *owner == region,
            Some(None) | None => false,
        }
    }

    // The region may write an array.
    fn write(&mut self, array: u32)
        ensures { self.new ≡ touched_by (may_write array) self.old }
    {
        let array = array as usize;
        if array < self.first.len() && self.first[array].is_none() {
            self.first[array] = Some(self.region);
        }
    }

    // The region may write several arrays.
    fn write_each(&mut self, arrays: &[u32])
        ensures { self.new ≡ touched (map may_write arrays.now) self.old }
    {
        'arrays: for array in arrays {
            self.write(*array);
        }
    }

    fn next_region(&mut self)
        ensures { self.new ≡ touched_by next_region self.old }
    {
        self.region = self.region.saturating_add(1);
    }

    // The region may write each array that a target may be in.
    fn write_target(&mut self, d: &Depends, x: &CoreTarget)
        ensures { self.new ≡ touched (map may_write (target_arrays (listed d.now.points) x.now)) self.old }
    {
        match x {
            CoreTarget::Cell(array, _) => self.write(*array),
            CoreTarget::Through(pointer, _) => self.write_each(d.points(*pointer)),
        }
    }

    // The region may write each array that a reading's target may be in, if there is one.
    fn write_reading(&mut self, d: &Depends, x: &Option<CoreTarget>)
        ensures { self.new ≡ touched (map may_write (reading_arrays (listed d.now.points) x.now)) self.old }
    {
        match x {
            None => {}
            Some(x) => self.write_target(d, x),
        }
    }

    // The region may write each array that a copy's destination may be in.
    fn write_end(&mut self, d: &Depends, end: &CoreEnd)
        ensures { self.new ≡ touched (map may_write (end_arrays (listed d.now.points) end.now)) self.old }
    {
        match end {
            CoreEnd::Cell(array, _) => self.write(*array),
            CoreEnd::Pointer(pointer) => self.write_each(d.points(*pointer)),
        }
    }

    #[cycle(touch)]
    fn touch_one(&mut self, d: &Depends, s: &CoreStmt)
        ensures { self.new ≡ touched (touches (listed d.now.points) s.now) self.old }
    {
        match s {
            CoreStmt::Assign(x, _) => self.write_target(d, x),
            CoreStmt::Point(_, _, _) => {}
            CoreStmt::If(_, yes_part, no_part) => {
                self.touch(d, yes_part.as_slice());
                self.touch(d, no_part.as_slice());
            }
            CoreStmt::Loop(variable, _, body) => {
                self.write(*variable);
                self.touch(d, body.as_slice());
            }
            CoreStmt::Io(_, x, _, _) => self.write_reading(d, x),
            CoreStmt::Block(_, body) => self.touch(d, body.as_slice()),
            CoreStmt::Copy(_, to, _, _) => {
                self.next_region();
                self.write_end(d, to);
            }
        }
    }

    /// Passes statements one after another.
    #[cycle(touch)]
    pub fn touch(&mut self, d: &Depends, body: &[CoreStmt])
        ensures { self.new ≡ all_touched (listed d.now.points) body.now self.old }
    {
        'statements: for s in body {
            self.touch_one(d, s);
        }
    }
}
