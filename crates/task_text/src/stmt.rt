//! Reads statements.
ghost use Rattle.task_text.specs.Reading.{Gives};
ghost use Rattle.task_text.specs.ReadingStmt as spec;

use crate::cursor::{Cursor, Opening};
use crate::error::ReadError;
use ease_base::List;
use std::alloc::Global;
use task_ast::{Expr, Stmt};
use task_tokens::{Keyword, Sign};

impl Cursor<'_> {
    /// Takes statements up to what is none, where so many levels of nesting are left, their own among them.
    #[cycle(stmt)]
    fn stmts(&mut self, alloc: Global, nesting: u32) -> Result<List<Stmt>, ReadError>
        ensures { Gives (spec.stmts_of (spec.stmt_at nesting) self.old) result self.new }
    {
        let mut stmts = List::new(alloc);
        'items: while self.begins_stmt() {
            let stmt = self.stmt(alloc, nesting)?;
            stmts.push(stmt)?;
        }
        Ok(stmts)
    }

    /// Takes statements in braces.
    #[cycle(stmt)]
    #[tactic(auto, unfolding(crate::specs::Reading::between))]
    fn body(&mut self, alloc: Global, nesting: u32) -> Result<List<Stmt>, ReadError>
        ensures { Gives (spec.body_of (spec.stmt_at nesting) self.old) result self.new }
    {
        self.sign(Sign::BraceOpen)?;
        let stmts = self.stmts(alloc, nesting)?;
        self.sign(Sign::BraceClose)?;
        Ok(stmts)
    }

    /// Takes `else` and statements in braces, or nothing.
    #[cycle(stmt)]
    #[tactic(auto, unfolding(crate::specs::ReadingStmt::else_of))]
    fn otherwise(&mut self, alloc: Global, nesting: u32) -> Result<List<Stmt>, ReadError>
        ensures { Gives (spec.else_of (spec.stmt_at nesting) self.old) result self.new }
    {
        if !self.begins_reserved(Keyword::Else) {
            return Ok(List::new(alloc));
        }
        self.reserved(Keyword::Else)?;
        self.body(alloc, nesting)
    }

    /// Takes the bodies of an `if`, behind its condition.
    #[cycle(stmt)]
    #[tactic(auto, unfolding(crate::specs::ReadingStmt::choice_of))]
    pub fn choice(
        &mut self,
        alloc: Global,
        nesting: u32,
        condition: Expr,
    ) -> Result<Stmt, ReadError>
        ensures { Gives (spec.choice_of (spec.stmt_at nesting) condition self.old) result self.new }
    {
        let first = self.body(alloc, nesting)?;
        let second = self.otherwise(alloc, nesting)?;
        Ok(Stmt::If(condition, first, second))
    }

    /// Takes an `if` with its bodies.
    #[cycle(stmt)]
    #[tactic(auto, unfolding(crate::specs::ReadingStmt::if_of))]
    fn if_stmt(&mut self, alloc: Global, nesting: u32) -> Result<Stmt, ReadError>
        ensures { Gives (spec.if_of (spec.stmt_at nesting) self.old) result self.new }
    {
        let condition = self.test(alloc)?;
        self.choice(alloc, nesting, condition)
    }

    /// Takes a loop.
    #[cycle(stmt)]
    #[tactic(auto, unfolding(crate::specs::ReadingStmt::loop_of))]
    fn loop_stmt(&mut self, alloc: Global, nesting: u32) -> Result<Stmt, ReadError>
        ensures { Gives (spec.loop_of (spec.stmt_at nesting) self.old) result self.new }
    {
        let head = self.loop_head(alloc)?;
        let body = self.body(alloc, nesting)?;
        Ok(Stmt::For(
            head.variable,
            head.turns.value,
            head.turns.at,
            body,
            head.word,
        ))
    }

    /// Takes `IO_BLOCK(annotation)` and statements in braces.
    #[cycle(stmt)]
    #[tactic(auto, unfolding(crate::specs::ReadingStmt::block_of, crate::specs::Reading::between))]
    fn block(&mut self, alloc: Global, nesting: u32) -> Result<Stmt, ReadError>
        ensures { Gives (spec.block_of (spec.stmt_at nesting) self.old) result self.new }
    {
        let word = self.reserved(Keyword::IoBlock)?;
        self.sign(Sign::ParenOpen)?;
        let annotation = self.annotation()?;
        self.sign(Sign::ParenClose)?;
        let body = self.body(alloc, nesting)?;
        Ok(Stmt::Block(annotation, body, word))
    }

    /// Takes the statement that begins so; inside it so many levels of nesting are left.
    #[cycle(stmt)]
    fn opened(&mut self, alloc: Global, nesting: u32, opening: Opening) -> Result<Stmt, ReadError>
        ensures { Gives (spec.stmt_of opening (spec.stmt_at nesting) self.old) result self.new }
    {
        match opening {
            Opening::Assignment => self.assigning(alloc),
            Opening::Call => self.call(alloc, None),
            Opening::Copy => self.copy(alloc),
            Opening::Block => self.block(alloc, nesting),
            Opening::If => self.if_stmt(alloc, nesting),
            Opening::Loop => self.loop_stmt(alloc, nesting),
            Opening::Nothing => Err(ReadError::Syntax),
        }
    }

    /// Takes a statement where so many levels of nesting are left, its own among them.
    #[cycle(stmt)]
    #[tactic(auto, unfolding(crate::specs::ReadingStmt::stmt_at))]
    pub fn stmt(&mut self, alloc: Global, nesting: u32) -> Result<Stmt, ReadError>
        ensures { Gives (spec.stmt_at nesting self.old) result self.new }
    {
        if nesting == 0 {
            return Err(ReadError::Syntax);
        }
        self.opened(alloc, nesting - 1, self.next_opening())
    }
}
