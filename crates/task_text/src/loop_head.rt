//! Reads the head of a loop, `for (i = 0; i < K; i++)`.
ghost use Rattle.task_text.specs.Reading.{Gives};
ghost use Rattle.task_text.specs.ReadingStmt as spec;

use crate::cursor::{Cursor, Numeral};
use crate::error::ReadError;
use ease_base::Pos;
use std::alloc::Global;
use task_ast::Name;
use task_tokens::{Keyword, Sign};

/// The variable of a loop, and the place of `for`.
#[derive(Drop)]
pub struct Start {
    pub variable: Name,
    pub word: Pos,
}

/// The variable of a loop, its turns, and the place of `for`.
#[derive(Drop)]
pub struct Head {
    pub variable: Name,
    pub turns: Numeral,
    pub word: Pos,
}

impl Cursor<'_> {
    /// Takes `for (NAME = 0;`.
    #[tactic(auto, unfolding(crate::specs::ReadingStmt::start_at))]
    fn loop_start(&mut self, alloc: Global) -> Result<Start, ReadError>
        ensures { Gives (spec.start_at self.old) result self.new }
    {
        let word = self.reserved(Keyword::For)?;
        self.sign(Sign::ParenOpen)?;
        let variable = self.name(alloc)?;
        self.sign(Sign::Equal)?;
        self.zero()?;
        self.sign(Sign::Semicolon)?;
        Ok(Start { variable, word })
    }

    /// Takes `NAME < NUM;`, with this name.
    #[tactic(auto, unfolding(crate::specs::ReadingStmt::bound_at))]
    fn loop_bound(&mut self, name: &[u8]) -> Result<Numeral, ReadError>
        ensures { Gives (spec.bound_at name.now self.old) result self.new }
    {
        self.same(name)?;
        self.sign(Sign::Less)?;
        let turns = self.number()?;
        self.sign(Sign::Semicolon)?;
        Ok(turns)
    }

    /// Takes `NAME++)`, with this name.
    #[tactic(auto, unfolding(crate::specs::ReadingStmt::step_at))]
    fn loop_step(&mut self, name: &[u8]) -> Result<Pos, ReadError>
        ensures { Gives (spec.step_at name.now self.old) result self.new }
    {
        self.same(name)?;
        self.sign(Sign::PlusPlus)?;
        self.sign(Sign::ParenClose)
    }

    /// Takes `for (NAME = 0; NAME < NUM; NAME++)`, the same name three times.
    #[tactic(auto, unfolding(crate::specs::ReadingStmt::head_at))]
    pub fn loop_head(&mut self, alloc: Global) -> Result<Head, ReadError>
        ensures { Gives (spec.head_at self.old) result self.new }
    {
        let Start { variable, word } = self.loop_start(alloc)?;
        let turns = self.loop_bound(variable.text.as_slice())?;
        self.loop_step(variable.text.as_slice())?;
        Ok(Head {
            variable,
            turns,
            word,
        })
    }
}
