//! Reads declarations.
ghost use Rattle.task_text.specs.Reading.{Gives, between};
ghost use Rattle.task_text.specs.ReadingDecl as spec;
ghost use Rattle.task_text.specs.ReadingProgram as programs;
ghost use Rattle.task_tokens.specs.declared.token.Sign.TheVariants as sign;

use crate::cursor::Cursor;
use crate::error::ReadError;
use ease_base::{List, Words};
use std::alloc::Global;
use task_ast::{Decl, Kind};
use task_tokens::{Keyword, Sign};

impl Cursor<'_> {
    /// Takes `const nv`.
    #[tactic(auto, unfolding(crate::specs::ReadingDecl::const_at))]
    fn constant(&mut self) -> Result<Kind, ReadError>
        ensures { Gives (spec.const_at self.old) result self.new }
    {
        self.reserved(Keyword::Const)?;
        self.reserved(Keyword::Nv)?;
        Ok(Kind::Const)
    }

    /// Takes `nv`.
    #[tactic(auto, unfolding(crate::specs::ReadingDecl::nv_at))]
    fn nonvolatile(&mut self) -> Result<Kind, ReadError>
        ensures { Gives (spec.nv_at self.old) result self.new }
    {
        self.reserved(Keyword::Nv)?;
        Ok(Kind::Nv)
    }

    /// Takes `const nv`, `nv`, or nothing for volatile words.
    #[tactic(auto, unfolding(crate::specs::ReadingDecl::kind_at))]
    fn kind(&mut self) -> Result<Kind, ReadError>
        ensures { Gives (spec.kind_at self.old) result self.new }
    {
        if self.begins_reserved(Keyword::Const) {
            return self.constant();
        }
        if self.begins_reserved(Keyword::Nv) {
            return self.nonvolatile();
        }
        Ok(Kind::Vol)
    }

    /// Takes `[NUM]` or nothing.
    #[tactic(auto, unfolding(crate::specs::ReadingDecl::size_at, crate::specs::Reading::between))]
    fn size(&mut self) -> Result<Option<u32>, ReadError>
        ensures { Gives (spec.size_at self.old) result self.new }
    {
        if !self.begins_sign(Sign::BracketOpen) {
            return Ok(None);
        }
        self.sign(Sign::BracketOpen)?;
        let n = self.number()?;
        self.sign(Sign::BracketClose)?;
        Ok(Some(n.value))
    }

    /// Takes `, NUM`.
    #[tactic(auto, unfolding(crate::specs::ReadingDecl::next_value_at))]
    fn next_value(&mut self) -> Result<u32, ReadError>
        ensures { Gives (spec.next_value_at self.old) result self.new }
    {
        self.sign(Sign::Comma)?;
        let n = self.number()?;
        Ok(n.value)
    }

    /// Takes numbers with commas between them, at least one.
    fn values(&mut self, alloc: Global) -> Result<Words, ReadError>
        ensures { Gives (spec.values_at self.old) result self.new }
    {
        let mut values = List::new(alloc);
        let first = self.number()?;
        values.push(first.value)?;
        'items: while self.begins_sign(Sign::Comma) {
            let value = self.next_value()?;
            values.push(value)?;
        }
        Ok(values)
    }

    /// Takes values in braces.
    #[tactic(auto, unfolding(crate::specs::Reading::between))]
    fn braced_values(&mut self, alloc: Global) -> Result<Words, ReadError>
        ensures { Gives (between sign.BraceOpen sign.BraceClose spec.values_at self.old) result self.new }
    {
        self.sign(Sign::BraceOpen)?;
        let values = self.values(alloc)?;
        self.sign(Sign::BraceClose)?;
        Ok(values)
    }

    /// Takes one number, or values in braces.
    #[tactic(auto, unfolding(crate::specs::ReadingDecl::list_at))]
    fn list(&mut self, alloc: Global) -> Result<Words, ReadError>
        ensures { Gives (spec.list_at self.old) result self.new }
    {
        if self.begins_sign(Sign::BraceOpen) {
            return self.braced_values(alloc);
        }
        let mut values = List::new(alloc);
        let n = self.number()?;
        values.push(n.value)?;
        Ok(values)
    }

    /// Takes nothing, or `=` and the values.
    #[tactic(auto, unfolding(crate::specs::ReadingDecl::init_at))]
    fn init(&mut self, alloc: Global) -> Result<Words, ReadError>
        ensures { Gives (spec.init_at self.old) result self.new }
    {
        if !self.begins_sign(Sign::Equal) {
            return Ok(List::new(alloc));
        }
        self.sign(Sign::Equal)?;
        self.list(alloc)
    }

    /// Takes `NAME size init ;`, of words of this kind.
    #[tactic(auto, unfolding(crate::specs::ReadingDecl::declared_at))]
    fn declared(&mut self, alloc: Global, kind: Kind) -> Result<Decl, ReadError>
        ensures { Gives (spec.declared_at kind self.old) result self.new }
    {
        let name = self.name(alloc)?;
        let size = self.size()?;
        let values = self.init(alloc)?;
        self.sign(Sign::Semicolon)?;
        Ok(Decl::Words(kind, name, size, values))
    }

    /// Takes `* NAME ;`.
    #[tactic(auto, unfolding(crate::specs::ReadingDecl::pointer_at))]
    fn pointer(&mut self, alloc: Global) -> Result<Decl, ReadError>
        ensures { Gives (spec.pointer_at self.old) result self.new }
    {
        self.sign(Sign::Star)?;
        let name = self.name(alloc)?;
        self.sign(Sign::Semicolon)?;
        Ok(Decl::Pointer(name))
    }

    /// Takes what stands behind `word`: volatile words may be a pointer.
    #[tactic(auto, unfolding(crate::specs::ReadingDecl::worded_at))]
    fn worded(&mut self, alloc: Global, kind: Kind) -> Result<Decl, ReadError>
        ensures { Gives (spec.worded_at kind self.old) result self.new }
    {
        match kind {
            Kind::Const => self.declared(alloc, Kind::Const),
            Kind::Nv => self.declared(alloc, Kind::Nv),
            Kind::Vol => {
                if self.begins_sign(Sign::Star) {
                    return self.pointer(alloc);
                }
                self.declared(alloc, Kind::Vol)
            }
        }
    }

    /// Takes `peripheral NAME NUM ;`.
    #[tactic(auto, unfolding(crate::specs::ReadingDecl::peripheral_at))]
    fn peripheral(&mut self, alloc: Global) -> Result<Decl, ReadError>
        ensures { Gives (spec.peripheral_at self.old) result self.new }
    {
        self.reserved(Keyword::Peripheral)?;
        let name = self.name(alloc)?;
        let number = self.number()?;
        self.sign(Sign::Semicolon)?;
        Ok(Decl::Peripheral(name, number.value))
    }

    /// Takes a declaration of words or of a pointer.
    #[tactic(auto, unfolding(crate::specs::ReadingDecl::words_at))]
    fn words(&mut self, alloc: Global) -> Result<Decl, ReadError>
        ensures { Gives (spec.words_at self.old) result self.new }
    {
        let kind = self.kind()?;
        self.reserved(Keyword::Word)?;
        self.worded(alloc, kind)
    }

    /// Takes a declaration.
    #[tactic(auto, unfolding(crate::specs::ReadingDecl::decl_at))]
    fn decl(&mut self, alloc: Global) -> Result<Decl, ReadError>
        ensures { Gives (spec.decl_at self.old) result self.new }
    {
        if self.begins_reserved(Keyword::Peripheral) {
            return self.peripheral(alloc);
        }
        self.words(alloc)
    }

    /// Takes the declarations.
    pub fn decls(&mut self, alloc: Global) -> Result<List<Decl>, ReadError>
        ensures { Gives (programs.decls_at self.old) result self.new }
    {
        let mut decls = List::new(alloc);
        'items: while self.begins_decl() {
            let decl = self.decl(alloc)?;
            decls.push(decl)?;
        }
        Ok(decls)
    }
}
