//! Reads expressions.
ghost use Rattle.std.specs.Prelude.{◌≡◌, ◌<◌, ◌≤◌, ◌+◌, ◌-◌, ◌^◌, IfOk};
ghost use Rattle.task_text.specs.Reading.{Gives, between};
ghost use Rattle.task_text.specs.ReadingExpr as spec;

use crate::cursor::Cursor;
use crate::error::ReadError;
use crate::operator::{PREFIX_BINDS, binds};
use ease_base::{Boxed, NoMemory};
use std::alloc::Global;
use task_ast::limits::DEEPEST;
use task_ast::{Expr, Name, Op1, Op2};
use task_tokens::Sign;

/// An expression and how deep it is.
#[derive(Drop)]
pub struct Deep {
    pub expr: Expr,
    pub depth: u32,
}

fn indexed(alloc: Global, name: Name, index: Deep) -> Result<Deep, NoMemory>
    requires { index.depth < 2 ^ 32 - 1 }
    ensures { IfOk result (λ d. d ≡ spec.indexed name index) }
{
    let Deep { expr, depth } = index;
    Ok(Deep {
        expr: Expr::Index(name, Boxed::new(alloc, expr)?),
        depth: depth + 1,
    })
}

fn parenthesized(alloc: Global, inner: Deep) -> Result<Deep, NoMemory>
    requires { inner.depth < 2 ^ 32 - 1 }
    ensures { IfOk result (λ d. d ≡ spec.parenthesized inner) }
{
    let Deep { expr, depth } = inner;
    Ok(Deep {
        expr: Expr::Paren(Boxed::new(alloc, expr)?),
        depth: depth + 1,
    })
}

fn prefixed(alloc: Global, op: Op1, inner: Deep) -> Result<Deep, NoMemory>
    requires { inner.depth < 2 ^ 32 - 1 }
    ensures { IfOk result (λ d. d ≡ spec.prefixed op inner) }
{
    let Deep { expr, depth } = inner;
    Ok(Deep {
        expr: Expr::One(op, Boxed::new(alloc, expr)?),
        depth: depth + 1,
    })
}

fn joined(alloc: Global, op: Op2, left: Deep, right: Deep) -> Result<Deep, NoMemory>
    requires left { left.depth < 2 ^ 32 - 1 }
    requires right { right.depth < 2 ^ 32 - 1 }
    ensures { IfOk result (λ d. d ≡ spec.joined op left right) }
{
    let depth = left.depth.max(right.depth) + 1;
    let Deep { expr: left, .. } = left;
    let Deep { expr: right, .. } = right;
    let left = Boxed::new(alloc, left)?;
    let right = Boxed::new(alloc, right)?;
    Ok(Deep {
        expr: Expr::Two(op, left, right),
        depth,
    })
}

impl Cursor<'_> {
    /// Takes an expression.
    #[tactic(auto, unfolding(crate::specs::ReadingExpr::value_at))]
    pub fn value(&mut self, alloc: Global) -> Result<Expr, ReadError>
        ensures { Gives (spec.value_at self.old) result self.new }
    {
        let deep = self.expr(alloc, DEEPEST, 0)?;
        Ok(deep.expr)
    }

    /// Takes an expression between two signs.
    #[tactic(auto, unfolding(crate::specs::Reading::between))]
    pub fn value_between(
        &mut self,
        alloc: Global,
        first: Sign,
        last: Sign,
    ) -> Result<Expr, ReadError>
        ensures { Gives (between first last spec.value_at self.old) result self.new }
    {
        self.sign(first)?;
        let value = self.value(alloc)?;
        self.sign(last)?;
        Ok(value)
    }

    /// Takes a number.
    #[tactic(auto, unfolding(crate::specs::ReadingExpr::literal_at))]
    fn literal(&mut self) -> Result<Deep, ReadError>
        ensures value { Gives (spec.literal_at self.old) result self.new }
        ensures deep { IfOk result (λ d. d.depth ≡ 1) }
    {
        let n = self.number()?;
        Ok(Deep {
            expr: Expr::Number(n.value, n.at),
            depth: 1,
        })
    }

    /// Takes an expression that is at most so deep between two signs.
    #[cycle(expr)]
    #[tactic(auto, unfolding(crate::specs::Reading::between))]
    fn enclosed(
        &mut self,
        alloc: Global,
        first: Sign,
        last: Sign,
        allowed: u32,
    ) -> Result<Deep, ReadError>
        requires { allowed < 2 ^ 32 - 1 }
        ensures value { Gives (between first last (spec.expr_at allowed 0) self.old) result self.new }
        ensures deep { IfOk result (λ d. d.depth ≤ allowed) }
    {
        self.sign(first)?;
        let inner = self.expr(alloc, allowed, 0)?;
        self.sign(last)?;
        Ok(inner)
    }

    /// Takes an expression in parentheses, whose inside may be so deep.
    #[cycle(expr)]
    #[tactic(auto, unfolding(crate::specs::ReadingExpr::paren_of))]
    fn paren(&mut self, alloc: Global, allowed: u32) -> Result<Deep, ReadError>
        requires { allowed < 2 ^ 32 - 1 }
        ensures value { Gives (spec.paren_of (spec.expr_at allowed 0) self.old) result self.new }
        ensures deep { IfOk result (λ d. d.depth ≤ allowed + 1) }
    {
        let inner = self.enclosed(alloc, Sign::ParenOpen, Sign::ParenClose, allowed)?;
        Ok(parenthesized(alloc, inner)?)
    }

    /// Takes what stands behind a name: an index that may be so deep, or nothing.
    #[cycle(expr)]
    #[tactic(auto, unfolding(crate::specs::ReadingExpr::behind_name))]
    fn behind_name(&mut self, alloc: Global, name: Name, allowed: u32) -> Result<Deep, ReadError>
        requires { allowed < 2 ^ 32 - 1 }
        ensures value { Gives (spec.behind_name (spec.expr_at allowed 0) name self.old) result self.new }
        ensures deep { IfOk result (λ d. d.depth ≤ allowed + 1) }
    {
        if !self.begins_sign(Sign::BracketOpen) {
            return Ok(Deep {
                expr: Expr::Read(name),
                depth: 1,
            });
        }
        let index = self.enclosed(alloc, Sign::BracketOpen, Sign::BracketClose, allowed)?;
        Ok(indexed(alloc, name, index)?)
    }

    /// Takes a scalar, or a word of an array whose index may be so deep.
    #[cycle(expr)]
    #[tactic(auto, unfolding(crate::specs::ReadingExpr::named_of))]
    fn named(&mut self, alloc: Global, allowed: u32) -> Result<Deep, ReadError>
        requires { allowed < 2 ^ 32 - 1 }
        ensures value { Gives (spec.named_of (spec.expr_at allowed 0) self.old) result self.new }
        ensures deep { IfOk result (λ d. d.depth ≤ allowed + 1) }
    {
        let name = self.name(alloc)?;
        self.behind_name(alloc, name, allowed)
    }

    /// Takes a prefix and what it stands before, which may be so deep.
    #[cycle(expr)]
    #[tactic(auto, unfolding(crate::specs::ReadingExpr::prefixed_of))]
    fn prefixed(&mut self, alloc: Global, allowed: u32) -> Result<Deep, ReadError>
        requires { allowed < 2 ^ 32 - 1 }
        ensures value { Gives (spec.prefixed_of (spec.expr_at allowed 10) self.old) result self.new }
        ensures deep { IfOk result (λ d. d.depth ≤ allowed + 1) }
    {
        let op = self.prefix()?;
        let inner = self.expr(alloc, allowed, PREFIX_BINDS)?;
        Ok(prefixed(alloc, op, inner)?)
    }

    /// Takes an expression without a binary operator outside parentheses, whose parts may be so deep.
    #[cycle(expr)]
    #[tactic(auto, unfolding(crate::specs::ReadingExpr::part_of))]
    fn part(&mut self, alloc: Global, allowed: u32) -> Result<Deep, ReadError>
        requires { allowed < 2 ^ 32 - 1 }
        ensures value { Gives (spec.part_of (spec.expr_at allowed) self.old) result self.new }
        ensures deep { IfOk result (λ d. d.depth ≤ allowed + 1) }
    {
        if self.begins_prefix() {
            return self.prefixed(alloc, allowed);
        }
        if self.begins_sign(Sign::ParenOpen) {
            return self.paren(alloc, allowed);
        }
        if self.begins_name() {
            return self.named(alloc, allowed);
        }
        self.literal()
    }

    /// Takes an expression that is at most so deep, of operators that bind at least so tightly.
    #[cycle(expr)]
    fn expr(&mut self, alloc: Global, allowed: u32, level: u32) -> Result<Deep, ReadError>
        requires { allowed < 2 ^ 32 - 1 }
        ensures value { Gives (spec.expr_at allowed level self.old) result self.new }
        ensures deep { IfOk result (λ d. d.depth ≤ allowed) }
    {
        if allowed == 0 {
            return Err(ReadError::Syntax);
        }
        let mut left = self.part(alloc, allowed - 1)?;
        'terms: while self.begins_operator(level) {
            if left.depth >= allowed {
                return Err(ReadError::Syntax);
            }
            let op = self.operator()?;
            let right = self.expr(alloc, allowed - 1, binds(op) + 1)?;
            left = joined(alloc, op, left, right)?;
        }
        Ok(left)
    }
}
