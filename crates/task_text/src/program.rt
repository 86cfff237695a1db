//! Reads the whole program.
ghost use Rattle.task_text.specs.Reading.{Gives};
ghost use Rattle.task_text.specs.ReadingProgram as spec;

use crate::cursor::Cursor;
use crate::error::ReadError;
use std::alloc::Global;
use task_ast::Program;

impl Cursor<'_> {
    /// Takes a whole program, up to the end of the tokens.
    #[tactic(auto, unfolding(crate::specs::ReadingProgram::program_at))]
    pub fn program(&mut self, alloc: Global) -> Result<Program, ReadError>
        ensures { Gives (spec.program_at self.old) result self.new }
    {
        let decls = self.decls(alloc)?;
        let tasks = self.tasks(alloc)?;
        if tasks.is_empty() {
            return Err(ReadError::Syntax);
        }
        if !self.is_at_end() {
            return Err(ReadError::Syntax);
        }
        Ok(Program { decls, tasks })
    }
}
