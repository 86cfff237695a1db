//! Which later sites depend on an I/O site of a task, and to which arrays its pointers may point.
ghost use Rattle.std.specs.Prelude.{◌≡◌, ◌<◌, IfOk, length, Contains};
ghost use Rattle.task_ast.specs.declared.core_form.Core.{Core as Program};
ghost use Rattle.task_ast.specs.declared.core_form.CoreTask.{CoreTask as Task};
ghost use Rattle.task_ast.specs.WellFormed.{IsWellFormed};
ghost use Rattle.io_depend.specs.Depend.{depends, points};
ghost use Rattle.io_depend.specs.Rows.{listed};
ghost use Rattle.io_depend.specs.Told.{Told, Tells, IsSiteOf, tells_later};

use crate::points::Points;
use crate::rows::{Rows, own_bit};
use ease_base::NoMemory;
use std::alloc::Global;
use std::marker::Model;
use task_ast::{Core, CoreTask};

/// What `depend` tells of a task.
#[derive(Drop)]
pub struct Depends {
    sites: Vec<u128>,
    points: Points,
}

impl Model for Depends {
    ghost use Rattle.io_depend.specs.Told.{Told};

    ghost Value = { Told };

    ghost view = { λ d. record { sites = d.sites.items; points = d.points } };
}

/// One forward pass over a task of a program (docs/LANGUAGE.md, "Dependence").
pub fn depend(alloc: Global, t: &CoreTask, c: &Core) -> Result<Depends, NoMemory>
    requires well_formed { IsWellFormed c.now }
    requires task { Contains c.now.tasks t.now }
    ensures { IfOk result (λ d. Tells c.now t.now d) }
{
    let arrays = c.arrays.len();
    let pointers = c.pointers.len();
    let points = Points::of(alloc, t.body.as_slice(), arrays, pointers)?;
    let mut rows = Rows::make(alloc, arrays, pointers, t.sites.len())?;
    rows.pass(alloc, &points, t.body.as_slice(), 0)?;
    Ok(Depends {
        sites: rows.into_sites(),
        points,
    })
}

impl Depends {
    // Whether the row of site k has the bit of site a, which stands before it.
    fn tells(&self, a: u32, k: u32) -> bool
        ensures { result ≡ tells_later self.now a k }
    {
        match self.sites.get(k as usize) {
            Some(row) => a < k && (*row & own_bit(a)) != 0,
            None => false,
        }
    }

    /// Whether site k depends on the I/O site a.
    pub fn later(&self, a: u32, k: u32) -> bool
        ensures rows { result ≡ tells_later self.now a k }
        ensures exact { (c : Program) (t : Task) → Tells c t self.now → IsSiteOf t a → IsSiteOf t k → result ≡ depends t a k }
    {
        self.tells(a, k)
    }

    /// The arrays to which pointer p may point, ascending.
    pub fn points(&self, p: u32) -> &[u32]
        ensures row { result.now ≡ listed self.now.points p }
        ensures exact { (c : Program) (t : Task) → Tells c t self.now → p < length c.pointers → result.now ≡ points c t p }
    {
        self.points.arrays(p)
    }
}
