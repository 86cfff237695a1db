//! The walk of statements.
ghost use Rattle.std.specs.Prelude.{◌≡◌};
ghost use Rattle.walk_run.specs.Outcome.{ran_of};
ghost use Rattle.audit_check.specs.Walked as steps;
ghost use Rattle.audit_check.specs.Walking.{Gives};

use crate::around::Around;
use crate::walking::{Stop, Walking};
use std::alloc::Global;
use task_ast::CoreStmt;

impl<'a> Walking<'a> {
    // A statement without sites, where events are left. Its loops may be long, so it isn't worked out where none is.
    #[tactic(auto, unfolding(crate::specs::Walked::plain_walked))]
    fn plain(&mut self, s: &CoreStmt) -> Result<(), Stop>
        ensures { Gives (steps.plain_walked s.now self.old) result self.new }
    {
        let Some(_) = self.rest.split_first() else {
            return Err(Stop::Parted);
        };
        self.plain_worked(s)
    }

    // What a statement without sites does, or its trap.
    #[tactic(auto, using(crate::proofs::StatementCode::plain_ends), unfolding(crate::specs::Walked::plain_worked))]
    fn plain_worked(&mut self, s: &CoreStmt) -> Result<(), Stop>
        ensures { Gives (steps.plain_worked s.now self.old) result self.new }
    {
        match self.live.plain(s) {
            Ok(()) => Ok(()),
            Err(why) => {
                self.trap(why);
                Err(Stop::Parted)
            }
        }
    }

    #[cycle(walk)]
    fn statement(&mut self, alloc: Global, around: &Around, s: &CoreStmt) -> Result<(), Stop>
        ensures { Gives (steps.statement_walked around.now s.now self.old) result self.new }
    {
        match s {
            CoreStmt::Assign(_, _) | CoreStmt::Point(_, _, _) | CoreStmt::Loop(_, _, _) => {
                self.plain(s)
            }
            CoreStmt::If(condition, yes_part, no_part) => {
                let word = self.word(condition)?;
                if word != 0 {
                    self.body(alloc, around, yes_part.as_slice())
                } else {
                    self.body(alloc, around, no_part.as_slice())
                }
            }
            CoreStmt::Io(site, onto, p, args) => {
                self.call(alloc, around, *site, onto, *p, args.as_slice())
            }
            CoreStmt::Block(site, body) => self.block(alloc, around, *site, body.as_slice()),
            CoreStmt::Copy(site, to, from, words) => {
                self.copy(alloc, around, *site, to, from, words)
            }
        }
    }

    // A block around its body.
    #[cycle(walk)]
    fn block(
        &mut self,
        alloc: Global,
        around: &Around,
        site: u32,
        body: &[CoreStmt],
    ) -> Result<(), Stop>
        ensures { Gives (steps.block_walked around.now site (steps.body_walked around.now body.now) self.old) result self.new }
    {
        let t = self.look(site)?;
        let outside = self.mode;
        let inside = self.inside(around, site, t);
        self.mode = inside;
        self.body(alloc, around, body)?;
        self.end_block(site, t, outside, inside)
    }

    /// Does statements one after another.
    #[cycle(walk)]
    pub fn body(&mut self, alloc: Global, around: &Around, body: &[CoreStmt]) -> Result<(), Stop>
        ensures { Gives (steps.body_walked around.now body.now self.old) result self.new }
    {
        'statements: for s in body {
            self.statement(alloc, around, s)?;
        }
        Ok(())
    }
}
