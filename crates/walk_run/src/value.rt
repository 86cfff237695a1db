//! The value of an expression.
ghost use Rattle.std.specs.Prelude.{◌≡◌};
ghost use Rattle.walk_run.specs.Store.{pointed};
ghost use Rattle.walk_run.specs.Operators.{decided};
ghost use Rattle.walk_run.specs.Value.{place_in, place_behind, word_found, value_of};

use crate::live::Live;
use crate::operators::{decided, of_one, of_two};
use crate::trap::Trap;
use task_ast::CoreExpr;

impl Live {
    /// The value of an expression, or its first trap.
    pub fn value(&self, e: &CoreExpr) -> Result<u32, Trap>
        ensures { result ≡ value_of e.now self.now }
    {
        match e {
            CoreExpr::Number(n) => Ok(*n),
            CoreExpr::Cell(array, index) => {
                let index = self.value(index.get())?;
                self.cell(*array, index)
            }
            CoreExpr::Through(pointer, index) => {
                let index = self.value(index.get())?;
                self.through(*pointer, index)
            }
            CoreExpr::One(op, operand) => {
                let word = self.value(operand.get())?;
                Ok(of_one(*op, word))
            }
            CoreExpr::Two(op, left, right) => {
                let left = self.value(left.get())?;
                match decided(*op, left) {
                    Some(word) => Ok(word),
                    None => {
                        let right = self.value(right.get())?;
                        of_two(*op, left, right)
                    }
                }
            }
        }
    }

    // The word at an index of an array.
    fn cell(&self, array: u32, index: u32) -> Result<u32, Trap>
        ensures { result ≡ word_found self.now (place_in self.now array index) }
    {
        let at = self.place_in(array, index)?;
        Ok(self.get(at.array, at.index))
    }

    // The word at an index through a pointer.
    fn through(&self, pointer: u32, index: u32) -> Result<u32, Trap>
        ensures { result ≡ word_found self.now (place_behind self.now (pointed self.now pointer) index) }
    {
        let at = self.place_behind(pointer, index)?;
        Ok(self.get(at.array, at.index))
    }
}
