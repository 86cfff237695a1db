//! Reads the parts of statements: targets, places, annotations, arguments and conditions.
ghost use Rattle.task_text.specs.Reading.{Gives, between};
ghost use Rattle.task_text.specs.ReadingStmt as spec;
ghost use Rattle.task_tokens.specs.declared.token.Sign.TheVariants as sign;

use crate::cursor::Cursor;
use crate::error::ReadError;
use ease_base::List;
use std::alloc::Global;
use task_ast::{Ann, Expr, Name, Place, Target};
use task_tokens::{Keyword, Sign};

impl Cursor<'_> {
    /// Takes `[expr]`.
    fn index(&mut self, alloc: Global) -> Result<Expr, ReadError>
        ensures { Gives (spec.index_at self.old) result self.new }
    {
        self.value_between(alloc, Sign::BracketOpen, Sign::BracketClose)
    }

    /// Takes what stands behind the name of a target: an index or nothing.
    #[tactic(auto, unfolding(crate::specs::ReadingStmt::target_of))]
    fn target_behind(&mut self, alloc: Global, name: Name) -> Result<Target, ReadError>
        ensures { Gives (spec.target_of name self.old) result self.new }
    {
        if !self.begins_sign(Sign::BracketOpen) {
            return Ok(Target::Scalar(name));
        }
        let index = self.index(alloc)?;
        Ok(Target::Element(name, index))
    }

    /// Takes `NAME` or `NAME[expr]`, which is assigned.
    #[tactic(auto, unfolding(crate::specs::ReadingStmt::target_at))]
    pub fn target(&mut self, alloc: Global) -> Result<Target, ReadError>
        ensures { Gives (spec.target_at self.old) result self.new }
    {
        let name = self.name(alloc)?;
        self.target_behind(alloc, name)
    }

    /// Takes what stands behind the name of an address: an index or nothing.
    #[tactic(auto, unfolding(crate::specs::ReadingStmt::address_of))]
    fn address_behind(&mut self, alloc: Global, name: Name) -> Result<Place, ReadError>
        ensures { Gives (spec.address_of name self.old) result self.new }
    {
        if !self.begins_sign(Sign::BracketOpen) {
            return Ok(Place::Scalar(name));
        }
        let index = self.index(alloc)?;
        Ok(Place::Element(name, index))
    }

    /// Takes `NAME` or `NAME[expr]`, whose address is taken.
    #[tactic(auto, unfolding(crate::specs::ReadingStmt::address_at))]
    pub fn address(&mut self, alloc: Global) -> Result<Place, ReadError>
        ensures { Gives (spec.address_at self.old) result self.new }
    {
        let name = self.name(alloc)?;
        self.address_behind(alloc, name)
    }

    /// Takes an end of a copy: `NAME`, `&NAME` or `&NAME[expr]`.
    #[tactic(auto, unfolding(crate::specs::ReadingStmt::place_at))]
    pub fn place(&mut self, alloc: Global) -> Result<Place, ReadError>
        ensures { Gives (spec.place_at self.old) result self.new }
    {
        if self.begins_sign(Sign::Ampersand) {
            self.sign(Sign::Ampersand)?;
            return self.address(alloc);
        }
        let name = self.name(alloc)?;
        Ok(Place::Bare(name))
    }

    /// Takes `TIMELY(NUM)`.
    #[tactic(auto, unfolding(crate::specs::ReadingStmt::timely_at, crate::specs::Reading::between))]
    fn timely(&mut self) -> Result<Ann, ReadError>
        ensures { Gives (spec.timely_at self.old) result self.new }
    {
        self.reserved(Keyword::Timely)?;
        self.sign(Sign::ParenOpen)?;
        let ticks = self.number()?;
        self.sign(Sign::ParenClose)?;
        Ok(Ann::Timely(ticks.value))
    }

    /// Takes `SINGLE`, `ALWAYS` or `TIMELY(NUM)`.
    #[tactic(auto, unfolding(crate::specs::ReadingStmt::ann_at))]
    pub fn annotation(&mut self) -> Result<Ann, ReadError>
        ensures { Gives (spec.ann_at self.old) result self.new }
    {
        if self.begins_reserved(Keyword::Single) {
            self.reserved(Keyword::Single)?;
            return Ok(Ann::Single);
        }
        if self.begins_reserved(Keyword::Always) {
            self.reserved(Keyword::Always)?;
            return Ok(Ann::Always);
        }
        self.timely()
    }

    /// Takes `, expr`.
    #[tactic(auto, unfolding(crate::specs::ReadingStmt::argument_at))]
    fn argument(&mut self, alloc: Global) -> Result<Expr, ReadError>
        ensures { Gives (spec.argument_at self.old) result self.new }
    {
        self.sign(Sign::Comma)?;
        self.value(alloc)
    }

    /// Takes the arguments of an I/O call, each behind a comma.
    pub fn arguments(&mut self, alloc: Global) -> Result<List<Expr>, ReadError>
        ensures { Gives (spec.arguments_at self.old) result self.new }
    {
        let mut arguments = List::new(alloc);
        'items: while self.begins_sign(Sign::Comma) {
            let argument = self.argument(alloc)?;
            arguments.push(argument)?;
        }
        Ok(arguments)
    }

    /// Takes `if (expr)`.
    #[tactic(auto, unfolding(crate::specs::ReadingStmt::test_at))]
    pub fn test(&mut self, alloc: Global) -> Result<Expr, ReadError>
        ensures { Gives (spec.test_at self.old) result self.new }
    {
        self.reserved(Keyword::If)?;
        self.value_between(alloc, Sign::ParenOpen, Sign::ParenClose)
    }
}
