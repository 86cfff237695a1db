//! Reads tasks.
ghost use Rattle.task_text.specs.Reading.{Gives};
ghost use Rattle.task_text.specs.ReadingProgram as spec;

use crate::cursor::{Cursor, Opening};
use crate::error::ReadError;
use ease_base::List;
use std::alloc::Global;
use task_ast::limits::MOST_NESTED;
use task_ast::{Exit, Expr, Stmt, Task};
use task_tokens::{Keyword, Sign};

/// What comes next in a task: a statement, or its exit.
#[derive(Drop)]
pub enum Turn {
    Act(Stmt),
    Leave(Exit),
}

/// The statements of a task and its exit.
#[derive(Drop)]
pub struct Body {
    pub stmts: List<Stmt>,
    pub exit: Exit,
}

impl Cursor<'_> {
    /// Takes what stands behind the condition of an `if` in a task: a brace makes it a statement, else it is the exit.
    #[tactic(auto, unfolding(crate::specs::ReadingProgram::branch_of))]
    fn branch(&mut self, alloc: Global, condition: Expr) -> Result<Turn, ReadError>
        ensures { Gives (spec.branch_of condition self.old) result self.new }
    {
        if self.begins_sign(Sign::BraceOpen) {
            let stmt = self.choice(alloc, MOST_NESTED - 1, condition)?;
            return Ok(Turn::Act(stmt));
        }
        let exit = self.chosen(alloc, MOST_NESTED - 1, condition)?;
        Ok(Turn::Leave(exit))
    }

    /// Takes what an `if` in a task begins.
    #[tactic(auto, unfolding(crate::specs::ReadingProgram::choosing_at))]
    fn choosing(&mut self, alloc: Global) -> Result<Turn, ReadError>
        ensures { Gives (spec.choosing_at self.old) result self.new }
    {
        let condition = self.test(alloc)?;
        self.branch(alloc, condition)
    }

    /// Takes a statement.
    #[tactic(auto, unfolding(crate::specs::ReadingProgram::acting_at))]
    fn acting(&mut self, alloc: Global) -> Result<Turn, ReadError>
        ensures { Gives (spec.acting_at self.old) result self.new }
    {
        let stmt = self.stmt(alloc, MOST_NESTED)?;
        Ok(Turn::Act(stmt))
    }

    /// Takes an exit without an `if`.
    #[tactic(auto, unfolding(crate::specs::ReadingProgram::leaving_at))]
    fn leaving(&mut self, alloc: Global) -> Result<Turn, ReadError>
        ensures { Gives (spec.leaving_at self.old) result self.new }
    {
        let exit = self.leave(alloc)?;
        Ok(Turn::Leave(exit))
    }

    /// Takes the next statement of a task, or its exit.
    #[tactic(auto, unfolding(crate::specs::ReadingProgram::turn_at))]
    fn turn(&mut self, alloc: Global) -> Result<Turn, ReadError>
        ensures { Gives (spec.turn_at self.old) result self.new }
    {
        match self.next_opening() {
            Opening::If => self.choosing(alloc),
            Opening::Nothing => self.leaving(alloc),
            Opening::Assignment => self.acting(alloc),
            Opening::Call => self.acting(alloc),
            Opening::Copy => self.acting(alloc),
            Opening::Block => self.acting(alloc),
            Opening::Loop => self.acting(alloc),
        }
    }

    /// Takes the statements of a task and its exit.
    fn work(&mut self, alloc: Global) -> Result<Body, ReadError>
        ensures { Gives (spec.work_at self.old) result self.new }
    {
        let mut stmts = List::new(alloc);
        'turns: loop {
            match self.turn(alloc)? {
                Turn::Act(stmt) => stmts.push(stmt)?,
                Turn::Leave(exit) => return Ok(Body { stmts, exit }),
            }
        }
    }

    /// Takes `task NAME { statements exit }`.
    #[tactic(auto, unfolding(crate::specs::ReadingProgram::task_at))]
    fn task(&mut self, alloc: Global) -> Result<Task, ReadError>
        ensures { Gives (spec.task_at self.old) result self.new }
    {
        self.reserved(Keyword::Task)?;
        let name = self.name(alloc)?;
        self.sign(Sign::BraceOpen)?;
        let Body { stmts, exit } = self.work(alloc)?;
        let close = self.sign(Sign::BraceClose)?;
        Ok(Task {
            name,
            body: stmts,
            exit,
            close,
        })
    }

    /// Takes the tasks.
    pub fn tasks(&mut self, alloc: Global) -> Result<List<Task>, ReadError>
        ensures { Gives (spec.tasks_at self.old) result self.new }
    {
        let mut tasks = List::new(alloc);
        'items: while self.begins_reserved(Keyword::Task) {
            let task = self.task(alloc)?;
            tasks.push(task)?;
        }
        Ok(tasks)
    }
}
