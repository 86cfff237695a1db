//! The bits of what is read: of expressions, of what finds a place, and of all that a loop reads.
ghost use Rattle.std.specs.Prelude.{◌≡◌};
ghost use Rattle.task_ast.specs.Pointing.{end_arrays};
ghost use Rattle.io_depend.specs.Rows.{listed, each_bits, through_bits, expr_bits, exprs_bits, target_bits, reading_bits, end_bits, assignment_bits, read_bits, all_bits, copy_bits};

use crate::points::Points;
use crate::rows::Rows;
use task_ast::{CoreEnd, CoreExpr, CoreStmt, CoreTarget};

impl Rows {
    // The bits of several arrays, and more.
    fn each(&self, arrays: &[u32], mut row: u128) -> u128
        ensures { result ≡ each_bits self.now.arrays row arrays.now }
    {
        'arrays: for array in arrays {
            row = row | self.array(*array);
        }
        row
    }

    // The bits of a pointer that is indexed through, and of all arrays to which it may point.
    fn through(&self, points: &Points, pointer: u32) -> u128
        ensures { result ≡ through_bits (listed points.now) self.now pointer }
    {
        self.each(points.arrays(pointer), self.pointer(pointer))
    }

    /// The bits of an expression; its indexes are read too.
    pub fn expr(&self, points: &Points, e: &CoreExpr) -> u128
        ensures { result ≡ expr_bits (listed points.now) self.now e.now }
    {
        match e {
            CoreExpr::Number(_) => 0,
            CoreExpr::Cell(array, index) => self.array(*array) | self.expr(points, index.get()),
            CoreExpr::Through(pointer, index) => {
                self.through(points, *pointer) | self.expr(points, index.get())
            }
            CoreExpr::One(_, inner) => self.expr(points, inner.get()),
            CoreExpr::Two(_, left, right) => {
                self.expr(points, left.get()) | self.expr(points, right.get())
            }
        }
    }

    /// The bits of expressions, and more.
    pub fn exprs(&self, points: &Points, es: &[CoreExpr], mut row: u128) -> u128
        ensures { result ≡ exprs_bits (listed points.now) self.now row es.now }
    {
        'expressions: for e in es {
            row = row | self.expr(points, e);
        }
        row
    }

    /// The bits of what finds a target: its index, and the pointer that it goes through.
    pub fn target(&self, points: &Points, x: &CoreTarget) -> u128
        ensures { result ≡ target_bits (listed points.now) self.now x.now }
    {
        match x {
            CoreTarget::Cell(_, index) => self.expr(points, index),
            CoreTarget::Through(pointer, index) => {
                self.pointer(*pointer) | self.expr(points, index)
            }
        }
    }

    /// The bits of what finds a reading's target, if there is one.
    pub fn reading(&self, points: &Points, x: &Option<CoreTarget>) -> u128
        ensures { result ≡ reading_bits (listed points.now) self.now x.now }
    {
        match x {
            None => 0,
            Some(x) => self.target(points, x),
        }
    }

    // The bits of what finds a copy's end: its index or its pointer.
    fn end(&self, points: &Points, end: &CoreEnd) -> u128
        ensures { result ≡ end_bits (listed points.now) self.now end.now }
    {
        match end {
            CoreEnd::Cell(_, index) => self.expr(points, index),
            CoreEnd::Pointer(pointer) => self.pointer(*pointer),
        }
    }

    // The bits of the arrays that a copy's source may be in, and more.
    fn source(&self, points: &Points, end: &CoreEnd, row: u128) -> u128
        ensures { result ≡ each_bits self.now.arrays row (end_arrays (listed points.now) end.now) }
    {
        match end {
            CoreEnd::Cell(array, _) => row | self.array(*array),
            CoreEnd::Pointer(pointer) => self.each(points.arrays(*pointer), row),
        }
    }

    /// The bits by which a copy depends: of its ends, its length and its source.
    pub fn copy(
        &self,
        points: &Points,
        around: u128,
        to: &CoreEnd,
        from: &CoreEnd,
        words: &CoreExpr,
    ) -> u128
        ensures { result ≡ copy_bits (listed points.now) around to.now from.now words.now self.now }
    {
        let ends = around | self.end(points, to) | self.end(points, from);
        self.source(points, from, ends | self.expr(points, words))
    }

    // The bits of all that an assignment in a loop reads.
    fn assignment(&self, points: &Points, x: &CoreTarget, e: &CoreExpr) -> u128
        ensures { result ≡ assignment_bits (listed points.now) self.now x.now e.now }
    {
        match x {
            CoreTarget::Cell(_, index) => self.expr(points, index) | self.expr(points, e),
            CoreTarget::Through(pointer, index) => {
                let found = self.through(points, *pointer) | self.expr(points, index);
                found | self.expr(points, e)
            }
        }
    }

    // The bits of all that a statement of a loop reads.
    #[cycle(read)]
    fn read_one(&self, points: &Points, s: &CoreStmt) -> u128
        ensures { result ≡ read_bits (listed points.now) self.now s.now }
    {
        match s {
            CoreStmt::Assign(x, e) => self.assignment(points, x, e),
            CoreStmt::Point(_, _, index) => self.expr(points, index),
            CoreStmt::If(condition, yes_part, no_part) => {
                let condition = self.expr(points, condition);
                let one = condition | self.read(points, yes_part.as_slice(), 0);
                one | self.read(points, no_part.as_slice(), 0)
            }
            CoreStmt::Loop(_, _, body) => self.read(points, body.as_slice(), 0),
            CoreStmt::Io(_, _, _, _) | CoreStmt::Block(_, _) | CoreStmt::Copy(_, _, _, _) => 0,
        }
    }

    /// The bits of all that the statements of a loop read, and more.
    #[cycle(read)]
    pub fn read(&self, points: &Points, body: &[CoreStmt], mut row: u128) -> u128
        ensures { result ≡ all_bits (listed points.now) self.now row body.now }
    {
        'statements: for s in body {
            row = row | self.read_one(points, s);
        }
        row
    }
}
