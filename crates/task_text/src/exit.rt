//! Reads how a task ends.
ghost use Rattle.task_text.specs.Reading.{Gives};
ghost use Rattle.task_text.specs.ReadingProgram as spec;

use crate::cursor::Cursor;
use crate::error::ReadError;
use ease_base::Boxed;
use std::alloc::Global;
use task_ast::{Exit, Expr};
use task_tokens::{Keyword, Sign};

impl Cursor<'_> {
    /// Takes `NEXT(NAME);`.
    #[tactic(auto, unfolding(crate::specs::ReadingProgram::next_at))]
    fn next_task(&mut self, alloc: Global) -> Result<Exit, ReadError>
        ensures { Gives (spec.next_at self.old) result self.new }
    {
        self.reserved(Keyword::Next)?;
        self.sign(Sign::ParenOpen)?;
        let name = self.name(alloc)?;
        self.sign(Sign::ParenClose)?;
        self.sign(Sign::Semicolon)?;
        Ok(Exit::Next(name))
    }

    /// Takes `STOP;`.
    #[tactic(auto, unfolding(crate::specs::ReadingProgram::stop_at))]
    fn stop(&mut self) -> Result<Exit, ReadError>
        ensures { Gives (spec.stop_at self.old) result self.new }
    {
        self.reserved(Keyword::Stop)?;
        self.sign(Sign::Semicolon)?;
        Ok(Exit::Stop)
    }

    /// Takes `NEXT(NAME);` or `STOP;`.
    #[tactic(auto, unfolding(crate::specs::ReadingProgram::leave_at))]
    pub fn leave(&mut self, alloc: Global) -> Result<Exit, ReadError>
        ensures { Gives (spec.leave_at self.old) result self.new }
    {
        if self.begins_reserved(Keyword::Next) {
            return self.next_task(alloc);
        }
        self.stop()
    }

    /// Takes the two exits of an `if`, behind its condition; so many `if`s may still stand on a path.
    #[cycle(exit)]
    #[tactic(auto, unfolding(crate::specs::ReadingProgram::chosen_of))]
    pub fn chosen(&mut self, alloc: Global, ifs: u32, condition: Expr) -> Result<Exit, ReadError>
        ensures { Gives (spec.chosen_of (spec.exit_at ifs) condition self.old) result self.new }
    {
        let first = self.exit(alloc, ifs)?;
        self.reserved(Keyword::Else)?;
        let second = self.exit(alloc, ifs)?;
        let first = Boxed::new(alloc, first)?;
        let second = Boxed::new(alloc, second)?;
        Ok(Exit::Choose(condition, first, second))
    }

    /// Takes an `if` with its exits.
    #[cycle(exit)]
    #[tactic(auto, unfolding(crate::specs::ReadingProgram::choose_of))]
    fn choose(&mut self, alloc: Global, ifs: u32) -> Result<Exit, ReadError>
        ensures { Gives (spec.choose_of (spec.exit_at ifs) self.old) result self.new }
    {
        let condition = self.test(alloc)?;
        self.chosen(alloc, ifs, condition)
    }

    /// Takes an exit, on whose paths so many `if`s may stand.
    #[cycle(exit)]
    #[tactic(auto, unfolding(crate::specs::ReadingProgram::exit_at))]
    fn exit(&mut self, alloc: Global, ifs: u32) -> Result<Exit, ReadError>
        ensures { Gives (spec.exit_at ifs self.old) result self.new }
    {
        if ifs == 0 {
            return self.leave(alloc);
        }
        if self.begins_reserved(Keyword::If) {
            return self.choose(alloc, ifs - 1);
        }
        self.leave(alloc)
    }
}
