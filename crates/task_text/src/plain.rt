//! Reads the statements that have no statements inside: assignments, I/O calls and copies.
ghost use Rattle.task_text.specs.Reading.{Gives};
ghost use Rattle.task_text.specs.ReadingStmt as spec;

use crate::cursor::Cursor;
use crate::error::ReadError;
use std::alloc::Global;
use task_ast::{Name, Stmt, Target};
use task_tokens::{Keyword, Sign};

impl Cursor<'_> {
    /// Takes `IO(NAME, annotation, arguments);`, which may set a target.
    #[tactic(auto, unfolding(crate::specs::ReadingStmt::call_at))]
    pub fn call(&mut self, alloc: Global, target: Option<Target>) -> Result<Stmt, ReadError>
        ensures { Gives (spec.call_at target self.old) result self.new }
    {
        let word = self.reserved(Keyword::Io)?;
        self.sign(Sign::ParenOpen)?;
        let peripheral = self.name(alloc)?;
        self.sign(Sign::Comma)?;
        let annotation = self.annotation()?;
        let arguments = self.arguments(alloc)?;
        self.sign(Sign::ParenClose)?;
        self.sign(Sign::Semicolon)?;
        Ok(Stmt::Io(target, peripheral, annotation, arguments, word))
    }

    /// Takes `DMA(place, place, expr);`, the destination first.
    #[tactic(auto, unfolding(crate::specs::ReadingStmt::copy_at))]
    pub fn copy(&mut self, alloc: Global) -> Result<Stmt, ReadError>
        ensures { Gives (spec.copy_at self.old) result self.new }
    {
        let word = self.reserved(Keyword::Dma)?;
        self.sign(Sign::ParenOpen)?;
        let destination = self.place(alloc)?;
        self.sign(Sign::Comma)?;
        let source = self.place(alloc)?;
        self.sign(Sign::Comma)?;
        let length = self.value(alloc)?;
        self.sign(Sign::ParenClose)?;
        self.sign(Sign::Semicolon)?;
        Ok(Stmt::Dma(destination, source, length, word))
    }

    /// Takes `&NAME;` or `&NAME[expr];`, to which the pointer is set.
    #[tactic(auto, unfolding(crate::specs::ReadingStmt::setting_of))]
    fn set_pointer(&mut self, alloc: Global, pointer: Name) -> Result<Stmt, ReadError>
        ensures { Gives (spec.setting_of (Target.Scalar pointer) self.old) result self.new }
    {
        self.sign(Sign::Ampersand)?;
        let place = self.address(alloc)?;
        self.sign(Sign::Semicolon)?;
        Ok(Stmt::Point(pointer, place))
    }

    /// Takes the address that a target is set to; only a name alone may be a pointer.
    #[tactic(auto, unfolding(crate::specs::ReadingStmt::setting_of))]
    fn setting(&mut self, alloc: Global, target: Target) -> Result<Stmt, ReadError>
        ensures { Gives (spec.setting_of target self.old) result self.new }
    {
        match target {
            Target::Scalar(pointer) => self.set_pointer(alloc, pointer),
            Target::Element(_, _) => Err(ReadError::Syntax),
        }
    }

    /// Takes `expr;`, which the target is set to.
    #[tactic(auto, unfolding(crate::specs::ReadingStmt::giving_of))]
    fn giving(&mut self, alloc: Global, target: Target) -> Result<Stmt, ReadError>
        ensures { Gives (spec.giving_of target self.old) result self.new }
    {
        let value = self.value(alloc)?;
        self.sign(Sign::Semicolon)?;
        Ok(Stmt::Assign(target, value))
    }

    /// Takes what the target is set to, behind `=`: a reading, an address or a value.
    #[tactic(auto, unfolding(crate::specs::ReadingStmt::assigned_of))]
    fn assigned(&mut self, alloc: Global, target: Target) -> Result<Stmt, ReadError>
        ensures { Gives (spec.assigned_of target self.old) result self.new }
    {
        if self.begins_reserved(Keyword::Io) {
            return self.call(alloc, Some(target));
        }
        if self.begins_sign(Sign::Ampersand) {
            return self.setting(alloc, target);
        }
        self.giving(alloc, target)
    }

    /// Takes a target, `=`, and what it is set to.
    #[tactic(auto, unfolding(crate::specs::ReadingStmt::assigning_at))]
    pub fn assigning(&mut self, alloc: Global) -> Result<Stmt, ReadError>
        ensures { Gives (spec.assigning_at self.old) result self.new }
    {
        let target = self.target(alloc)?;
        self.sign(Sign::Equal)?;
        self.assigned(alloc, target)
    }
}
