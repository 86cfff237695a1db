//! Bits into all arrays and pointers that statements may assign.
ghost use Rattle.std.specs.Prelude.{◌≡◌, [], ◌∷◌};
ghost use Rattle.task_ast.specs.Pointing.{target_arrays, reading_arrays, end_arrays};
ghost use Rattle.io_depend.specs.Rows.{listed, in_arrays, spread, all_spread};

use crate::points::Points;
use crate::rows::Rows;
use task_ast::{CoreEnd, CoreStmt, CoreTarget};

impl Rows {
    /// Puts bits into each array that a target may be in.
    pub fn into_target(&mut self, points: &Points, x: &CoreTarget, row: u128)
        ensures { self.new ≡ in_arrays self.old (target_arrays (listed points.now) x.now) row }
    {
        match x {
            CoreTarget::Cell(array, _) => self.into_array(*array, row),
            CoreTarget::Through(pointer, _) => self.into_arrays(points.arrays(*pointer), row),
        }
    }

    /// Puts bits into each array that a reading's target may be in, if there is one.
    pub fn into_reading(&mut self, points: &Points, x: &Option<CoreTarget>, row: u128)
        ensures { self.new ≡ in_arrays self.old (reading_arrays (listed points.now) x.now) row }
    {
        match x {
            None => {}
            Some(x) => self.into_target(points, x, row),
        }
    }

    /// Puts bits into each array that an end of a copy may be in.
    pub fn into_end(&mut self, points: &Points, end: &CoreEnd, row: u128)
        ensures { self.new ≡ in_arrays self.old (end_arrays (listed points.now) end.now) row }
    {
        match end {
            CoreEnd::Cell(array, _) => self.into_array(*array, row),
            CoreEnd::Pointer(pointer) => self.into_arrays(points.arrays(*pointer), row),
        }
    }

    #[cycle(spread)]
    fn spread_one(&mut self, points: &Points, s: &CoreStmt, row: u128)
        ensures { self.new ≡ spread (listed points.now) s.now row self.old }
    {
        match s {
            CoreStmt::Assign(x, _) => self.into_target(points, x, row),
            CoreStmt::Point(pointer, _, _) => self.into_pointer(*pointer, row),
            CoreStmt::If(_, yes_part, no_part) => {
                self.spread(points, yes_part.as_slice(), row);
                self.spread(points, no_part.as_slice(), row);
            }
            CoreStmt::Loop(variable, _, body) => {
                self.into_array(*variable, row);
                self.spread(points, body.as_slice(), row);
            }
            CoreStmt::Io(_, x, _, _) => self.into_reading(points, x, row),
            CoreStmt::Block(_, body) => self.spread(points, body.as_slice(), row),
            CoreStmt::Copy(_, to, _, _) => self.into_end(points, to, row),
        }
    }

    /// Puts bits into all arrays and pointers that statements may assign.
    #[cycle(spread)]
    pub fn spread(&mut self, points: &Points, body: &[CoreStmt], row: u128)
        ensures { self.new ≡ all_spread (listed points.now) body.now row self.old }
    {
        'statements: for s in body {
            self.spread_one(points, s, row);
        }
    }
}
