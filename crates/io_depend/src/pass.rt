//! One forward pass over a task's statements for all its I/O sites at once (docs/LANGUAGE.md, "Dependence").
ghost use Rattle.std.specs.Prelude.{◌≡◌, OnOk};
ghost use Rattle.io_depend.specs.Rows.{listed, io_done, copy_done, done, all_done};

use crate::points::Points;
use crate::rows::{Rows, own_bit};
use ease_base::NoMemory;
use std::alloc::Global;
use task_ast::{CoreEnd, CoreExpr, CoreStmt, CoreTarget};

impl Rows {
    // An I/O site: it depends on its arguments, and its target takes its own bit.
    fn pass_io(
        &mut self,
        points: &Points,
        around: u128,
        site: u32,
        x: &Option<CoreTarget>,
        args: &[CoreExpr],
    )
        ensures { self.new ≡ io_done (listed points.now) around site x.now args.now self.old }
    {
        let found = self.exprs(points, args, around);
        let row = own_bit(site) | around | self.reading(points, x);
        self.into_site(site, found);
        self.into_reading(points, x, row);
    }

    // A copy: it depends on its ends, its length and its source, and its destination takes all that.
    fn pass_copy(
        &mut self,
        points: &Points,
        around: u128,
        site: u32,
        to: &CoreEnd,
        from: &CoreEnd,
        words: &CoreExpr,
    )
        ensures { self.new ≡ copy_done (listed points.now) around site to.now from.now words.now self.old }
    {
        let row = self.copy(points, around, to, from, words);
        self.into_site(site, row);
        self.into_end(points, to, row);
    }

    #[cycle(pass)]
    fn pass_one(
        &mut self,
        alloc: Global,
        points: &Points,
        s: &CoreStmt,
        around: u128,
    ) -> Result<(), NoMemory>
        ensures { OnOk result (self.new ≡ done (listed points.now) s.now around self.old) }
    {
        match s {
            CoreStmt::Assign(x, e) => {
                let row = around | self.target(points, x) | self.expr(points, e);
                self.into_target(points, x, row);
            }
            CoreStmt::Point(pointer, _, index) => {
                let row = around | self.expr(points, index);
                self.into_pointer(*pointer, row);
            }
            CoreStmt::If(condition, yes_part, no_part) => {
                let inside = around | self.expr(points, condition);
                let before = self.branch(alloc)?;
                self.pass(alloc, points, yes_part.as_slice(), inside)?;
                let one = self.swap(before);
                self.pass(alloc, points, no_part.as_slice(), inside)?;
                self.join_branch(&one);
            }
            CoreStmt::Loop(variable, _, body) => {
                let row = around | self.read(points, body.as_slice(), 0);
                self.into_array(*variable, row);
                self.spread(points, body.as_slice(), row);
            }
            CoreStmt::Io(site, x, _, args) => {
                self.pass_io(points, around, *site, x, args.as_slice());
            }
            CoreStmt::Block(site, body) => {
                let outside = self.enter_block();
                self.pass(alloc, points, body.as_slice(), around)?;
                self.leave_block(around, *site, outside);
            }
            CoreStmt::Copy(site, to, from, words) => {
                self.pass_copy(points, around, *site, to, from, words);
            }
        }
        Ok(())
    }

    /// Passes statements one after another; `around` has the bits of all conditions around them. Memory is taken for
    /// the rows of an `if`'s other branch alone.
    #[cycle(pass)]
    pub fn pass(
        &mut self,
        alloc: Global,
        points: &Points,
        body: &[CoreStmt],
        around: u128,
    ) -> Result<(), NoMemory>
        ensures { OnOk result (self.new ≡ all_done (listed points.now) body.now around self.old) }
    {
        'statements: for s in body {
            self.pass_one(alloc, points, s, around)?;
        }
        Ok(())
    }
}
