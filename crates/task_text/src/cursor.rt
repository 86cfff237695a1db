//! A cursor over the tokens that are left.
ghost use Rattle.std.specs.Prelude.{◌≡◌, ◌==◌, length};
ghost use Rattle.task_text.specs.Reading as spec;
ghost use Rattle.task_text.specs.Reading.{Gives};
ghost use Rattle.task_text.specs.ReadingExpr as exprs;

use crate::error::ReadError;
use crate::operator::{binary_of, is_tight, unary_of};
use ease_base::{List, Pos};
use std::alloc::Global;
use std::marker::Model;
use task_ast::{Name, Op1, Op2};
use task_tokens::{Keyword, Lexeme, Sign, Token};

/// The tokens that are left.
#[derive(Drop)]
pub struct Cursor<'a> {
    left: &'a [Token],
}

impl<'a> Model for Cursor<'a> {
    ghost use Rattle.std.specs.Prelude.{List};
    ghost use Rattle.task_tokens.specs.declared.token.Token.{Token};

    ghost Value = { List Token };

    ghost view = { λ c. c.left.now };
}

/// What a token begins in a task: a statement of some kind, or none.
#[derive(Clone, Copy)]
pub enum Opening {
    /// A name: what it is set to, or the target of a reading.
    Assignment,
    /// `IO`.
    Call,
    /// `DMA`.
    Copy,
    /// `IO_BLOCK`.
    Block,
    If,
    Loop,
    Nothing,
}

/// A number and its place.
#[derive(Clone, Copy)]
pub struct Numeral {
    pub value: u32,
    pub at: Pos,
}

fn is_symbol(lexeme: &Lexeme, sign: Sign) -> bool
    ensures { result ≡ spec.is_symbol sign lexeme.now }
{
    match lexeme {
        Lexeme::Symbol(found) => *found == sign,
        _ => false,
    }
}

fn is_reserved(lexeme: &Lexeme, keyword: Keyword) -> bool
    ensures { result ≡ spec.is_reserved keyword lexeme.now }
{
    match lexeme {
        Lexeme::Reserved(found) => *found == keyword,
        _ => false,
    }
}

fn is_name(lexeme: &Lexeme) -> bool
    ensures { result ≡ spec.is_name lexeme.now }
{
    match lexeme {
        Lexeme::Name(_) => true,
        _ => false,
    }
}

/// Whether a declaration begins so.
fn is_declaring(lexeme: &Lexeme) -> bool
    ensures { result ≡ spec.is_declaring lexeme.now }
{
    match lexeme {
        Lexeme::Reserved(Keyword::Const) => true,
        Lexeme::Reserved(Keyword::Nv) => true,
        Lexeme::Reserved(Keyword::Word) => true,
        Lexeme::Reserved(Keyword::Peripheral) => true,
        _ => false,
    }
}

/// What a token begins in a task.
fn opening_of(lexeme: &Lexeme) -> Opening
    ensures { result ≡ spec.opening_of lexeme.now }
{
    match lexeme {
        Lexeme::Name(_) => Opening::Assignment,
        Lexeme::Reserved(Keyword::Io) => Opening::Call,
        Lexeme::Reserved(Keyword::Dma) => Opening::Copy,
        Lexeme::Reserved(Keyword::IoBlock) => Opening::Block,
        Lexeme::Reserved(Keyword::If) => Opening::If,
        Lexeme::Reserved(Keyword::For) => Opening::Loop,
        _ => Opening::Nothing,
    }
}

/// Whether a statement begins so.
fn is_acting(opening: Opening) -> bool
    ensures { result ≡ spec.is_acting opening }
{
    match opening {
        Opening::Assignment
        | Opening::Call
        | Opening::Copy
        | Opening::Block
        | Opening::If
        | Opening::Loop => true,
        Opening::Nothing => false,
    }
}

fn is_same(lexeme: &Lexeme, text: &[u8]) -> bool
    ensures { result ≡ spec.is_same text.now lexeme.now }
{
    match lexeme {
        Lexeme::Name(found) => found.as_slice() == text,
        _ => false,
    }
}

fn is_zero(lexeme: &Lexeme) -> bool
    ensures { result ≡ spec.is_zero lexeme.now }
{
    match lexeme {
        Lexeme::Number(n) => *n == 0,
        _ => false,
    }
}

impl<'a> Cursor<'a> {
    pub fn new(tokens: &'a [Token]) -> Cursor<'a>
        ensures { result ≡ tokens.now }
    {
        Cursor { left: tokens }
    }

    /// How many tokens are left.
    pub fn left(&self) -> usize
        ensures { result ≡ length self.now }
    {
        self.left.len()
    }

    pub fn is_at_end(&self) -> bool
        ensures { result ≡ spec.is_empty self.now }
    {
        self.left.is_empty()
    }

    pub fn begins_sign(&self, sign: Sign) -> bool
        ensures { result ≡ spec.begins_sign sign self.now }
    {
        match self.left.first() {
            Some(token) => is_symbol(&token.lexeme, sign),
            None => false,
        }
    }

    pub fn begins_reserved(&self, keyword: Keyword) -> bool
        ensures { result ≡ spec.begins_reserved keyword self.now }
    {
        match self.left.first() {
            Some(token) => is_reserved(&token.lexeme, keyword),
            None => false,
        }
    }

    pub fn begins_name(&self) -> bool
        ensures { result ≡ spec.begins_name self.now }
    {
        match self.left.first() {
            Some(token) => is_name(&token.lexeme),
            None => false,
        }
    }

    pub fn begins_decl(&self) -> bool
        ensures { result ≡ spec.begins_decl self.now }
    {
        match self.left.first() {
            Some(token) => is_declaring(&token.lexeme),
            None => false,
        }
    }

    pub fn begins_stmt(&self) -> bool
        ensures { result ≡ spec.begins_stmt self.now }
    {
        is_acting(self.next_opening())
    }

    /// What the next token begins: a statement of some kind, or none.
    pub fn next_opening(&self) -> Opening
        ensures { result ≡ spec.next_opening self.now }
    {
        match self.left.first() {
            Some(token) => opening_of(&token.lexeme),
            None => Opening::Nothing,
        }
    }

    /// Whether the next token is a name of these bytes.
    fn begins_same(&self, text: &[u8]) -> bool
        ensures { result ≡ spec.begins_same text.now self.now }
    {
        match self.left.first() {
            Some(token) => is_same(&token.lexeme, text),
            None => false,
        }
    }

    fn begins_zero(&self) -> bool
        ensures { result ≡ spec.begins_zero self.now }
    {
        match self.left.first() {
            Some(token) => is_zero(&token.lexeme),
            None => false,
        }
    }

    /// Takes one token, and gives its place.
    #[tactic(auto, unfolding(crate::specs::Reading::any_at))]
    fn any(&mut self) -> Result<Pos, ReadError>
        ensures { Gives (spec.any_at self.old) result self.new }
    {
        let Some((token, rest)) = self.left.split_first() else {
            return Err(ReadError::Syntax);
        };
        self.left = rest;
        Ok(token.at)
    }

    /// Takes this sign.
    #[tactic(auto, unfolding(crate::specs::Reading::sign_at))]
    pub fn sign(&mut self, sign: Sign) -> Result<Pos, ReadError>
        ensures { Gives (spec.sign_at sign self.old) result self.new }
    {
        if !self.begins_sign(sign) {
            return Err(ReadError::Syntax);
        }
        self.any()
    }

    /// Takes this reserved word.
    #[tactic(auto, unfolding(crate::specs::Reading::reserved_at))]
    pub fn reserved(&mut self, keyword: Keyword) -> Result<Pos, ReadError>
        ensures { Gives (spec.reserved_at keyword self.old) result self.new }
    {
        if !self.begins_reserved(keyword) {
            return Err(ReadError::Syntax);
        }
        self.any()
    }

    /// Takes this name again.
    #[tactic(auto, unfolding(crate::specs::Reading::same_at))]
    pub fn same(&mut self, text: &[u8]) -> Result<Pos, ReadError>
        ensures { Gives (spec.same_at text.now self.old) result self.new }
    {
        if !self.begins_same(text) {
            return Err(ReadError::Syntax);
        }
        self.any()
    }

    /// Takes a number of value 0.
    #[tactic(auto, unfolding(crate::specs::Reading::zero_at))]
    pub fn zero(&mut self) -> Result<Pos, ReadError>
        ensures { Gives (spec.zero_at self.old) result self.new }
    {
        if !self.begins_zero() {
            return Err(ReadError::Syntax);
        }
        self.any()
    }

    /// Takes a name.
    #[tactic(auto, unfolding(crate::specs::Reading::name_at))]
    pub fn name(&mut self, alloc: Global) -> Result<Name, ReadError>
        ensures { Gives (spec.name_at self.old) result self.new }
    {
        let Some((token, rest)) = self.left.split_first() else {
            return Err(ReadError::Syntax);
        };
        let Lexeme::Name(text) = &token.lexeme else {
            return Err(ReadError::Syntax);
        };
        let text = List::from_slice(alloc, text.as_slice())?;
        self.left = rest;
        Ok(Name { text, at: token.at })
    }

    /// Takes a number.
    #[tactic(auto, unfolding(crate::specs::Reading::number_at))]
    pub fn number(&mut self) -> Result<Numeral, ReadError>
        ensures { Gives (spec.number_at self.old) result self.new }
    {
        let Some((token, rest)) = self.left.split_first() else {
            return Err(ReadError::Syntax);
        };
        let Lexeme::Number(value) = &token.lexeme else {
            return Err(ReadError::Syntax);
        };
        self.left = rest;
        Ok(Numeral {
            value: *value,
            at: token.at,
        })
    }

    /// Whether a binary operator is next that binds at least so tightly.
    pub fn begins_operator(&self, level: u32) -> bool
        ensures { result ≡ exprs.begins_operator level self.now }
    {
        match self.left.first() {
            Some(token) => is_tight(level, binary_of(&token.lexeme)),
            None => false,
        }
    }

    pub fn begins_prefix(&self) -> bool
        ensures { result ≡ exprs.begins_prefix self.now }
    {
        match self.left.first() {
            Some(token) => unary_of(&token.lexeme).is_some(),
            None => false,
        }
    }

    /// Takes a binary operator.
    #[tactic(auto, unfolding(crate::specs::ReadingExpr::operator_at))]
    pub fn operator(&mut self) -> Result<Op2, ReadError>
        ensures { Gives (exprs.operator_at self.old) result self.new }
    {
        let Some((token, rest)) = self.left.split_first() else {
            return Err(ReadError::Syntax);
        };
        let Some(op) = binary_of(&token.lexeme) else {
            return Err(ReadError::Syntax);
        };
        self.left = rest;
        Ok(op)
    }

    /// Takes a prefix.
    #[tactic(auto, unfolding(crate::specs::ReadingExpr::prefix_at))]
    pub fn prefix(&mut self) -> Result<Op1, ReadError>
        ensures { Gives (exprs.prefix_at self.old) result self.new }
    {
        let Some((token, rest)) = self.left.split_first() else {
            return Err(ReadError::Syntax);
        };
        let Some(op) = unary_of(&token.lexeme) else {
            return Err(ReadError::Syntax);
        };
        self.left = rest;
        Ok(op)
    }
}
