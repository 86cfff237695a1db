//! Statements without sites, which write the store alone.
ghost use Rattle.std.specs.Prelude.{◌≡◌};
ghost use Rattle.walk_run.specs.Outcome.{ran_of};
ghost use Rattle.walk_run.specs.Plain.{assigned, pointed_at, set_variable, turns_done, plain_done, all_done};
ghost use Rattle.walk_run.specs.Store.{KeepsFit};

use crate::live::Live;
use crate::trap::Trap;
use task_ast::{CoreExpr, CoreStmt, CoreTarget};

impl Live {
    /// Does a statement without sites: what stands in it besides, a call, a block or a copy, does nothing. At a trap the
    /// store is as the statement left it there.
    pub fn plain(&mut self, s: &CoreStmt) -> Result<(), Trap>
        ensures done { ran_of result self.new ≡ plain_done s.now self.old }
        ensures fits { KeepsFit self.old self.new }
    {
        self.do_one(s)
    }

    #[cycle(plain)]
    fn do_one(&mut self, s: &CoreStmt) -> Result<(), Trap>
        ensures { ran_of result self.new ≡ plain_done s.now self.old }
    {
        match s {
            CoreStmt::Assign(target, e) => self.assign(target, e),
            CoreStmt::Point(pointer, array, index) => self.point_at(*pointer, *array, index),
            CoreStmt::If(condition, yes_part, no_part) => {
                let word = self.value(condition)?;
                if word != 0 {
                    self.do_all(yes_part.as_slice())
                } else {
                    self.do_all(no_part.as_slice())
                }
            }
            CoreStmt::Loop(variable, turns, body) => self.do_turns(
                *variable,
                *turns,
                body.as_slice(),
            ),
            CoreStmt::Io(_, _, _, _) | CoreStmt::Block(_, _) | CoreStmt::Copy(_, _, _, _) => Ok(()),
        }
    }

    #[cycle(plain)]
    fn do_all(&mut self, body: &[CoreStmt]) -> Result<(), Trap>
        ensures { ran_of result self.new ≡ all_done body.now self.old }
    {
        'statements: for statement in body {
            self.do_one(statement)?;
        }
        Ok(())
    }

    // Does the turns of a loop: before each its variable is its number, behind the last the number of all turns.
    #[cycle(plain)]
    fn do_turns(&mut self, variable: u32, turns: u32, body: &[CoreStmt]) -> Result<(), Trap>
        ensures { ran_of result self.new ≡ turns_done (all_done body.now) variable 0 turns self.old }
    {
        'turns: for number in 0..turns {
            self.set_variable(variable, number);
            self.do_all(body)?;
        }
        self.set_variable(variable, turns);
        Ok(())
    }

    // Writes the one word of a loop's variable; does nothing where there is no such array.
    fn set_variable(&mut self, variable: u32, number: u32)
        ensures { self.new ≡ set_variable variable number self.old }
    {
        if self.room(variable) > 0 {
            self.set(variable, 0, number);
        }
    }

    fn assign(&mut self, target: &CoreTarget, e: &CoreExpr) -> Result<(), Trap>
        ensures { ran_of result self.new ≡ assigned target.now e.now self.old }
    {
        let at = self.target(target)?;
        let word = self.value(e)?;
        self.set(at.array, at.index, word);
        Ok(())
    }

    fn point_at(&mut self, pointer: u32, array: u32, index: &CoreExpr) -> Result<(), Trap>
        ensures { ran_of result self.new ≡ pointed_at pointer array index.now self.old }
    {
        let index = self.value(index)?;
        let at = self.place_in(array, index)?;
        self.point(pointer, at);
        Ok(())
    }
}
