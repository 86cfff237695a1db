//! A program as it is read: names are texts with their places, and parentheses are kept.
use ease_base::{Boxed, List, Pos, Text, Words};

/// A name and the place of its first byte.
#[derive(Drop)]
pub struct Name {
    pub text: Text,
    pub at: Pos,
}

/// How often a site is carried out: once, again when its record is too old, or in every attempt.
#[derive(Clone, Copy, PartialEq, Eq)]
pub enum Ann {
    Single,
    /// With the ticks after which a record is expired.
    Timely(u32),
    Always,
}

/// The prefixes `!`, `~` and `-`.
#[derive(Clone, Copy, PartialEq, Eq)]
pub enum Op1 {
    Not,
    Inv,
    Neg,
}

/// The binary operators; `Both` is `&&` and `Either` is `||`.
#[derive(Clone, Copy, PartialEq, Eq)]
pub enum Op2 {
    Add,
    Sub,
    Mul,
    Div,
    Rem,
    And,
    Or,
    Xor,
    Shl,
    Shr,
    Eq,
    Ne,
    Lt,
    Le,
    Gt,
    Ge,
    Both,
    Either,
}

/// An expression.
#[derive(Drop)]
pub enum Expr {
    /// A number and its place.
    Number(u32, Pos),
    /// A scalar that is read.
    Read(Name),
    /// A word of an array.
    Index(Name, Boxed<Expr>),
    Paren(Boxed<Expr>),
    One(Op1, Boxed<Expr>),
    Two(Op2, Boxed<Expr>, Boxed<Expr>),
}

/// What is assigned: `x` or `a[e]`.
#[derive(Drop)]
pub enum Target {
    Scalar(Name),
    Element(Name, Expr),
}

/// An end of a copy, or what a pointer is set to: `a` or `p`, `&x`, `&a[e]`.
#[derive(Drop)]
pub enum Place {
    Bare(Name),
    Scalar(Name),
    Element(Name, Expr),
}

/// A statement.
#[derive(Drop)]
pub enum Stmt {
    Assign(Target, Expr),
    /// A pointer and what it is set to, a `Scalar` or an `Element`.
    Point(Name, Place),
    If(Expr, List<Stmt>, List<Stmt>),
    /// The variable, the number of turns, its place, the body, and the place of `for`.
    For(Name, u32, Pos, List<Stmt>, Pos),
    /// The target, the peripheral, the annotation, the arguments, and the place of `IO`.
    Io(Option<Target>, Name, Ann, List<Expr>, Pos),
    /// The annotation, the body, and the place of `IO_BLOCK`.
    Block(Ann, List<Stmt>, Pos),
    /// Destination, source, length, and the place of `DMA`.
    Dma(Place, Place, Expr, Pos),
}

/// How a task ends.
#[derive(Drop)]
pub enum Exit {
    Next(Name),
    Stop,
    Choose(Expr, Boxed<Exit>, Boxed<Exit>),
}

/// A task, with the place of its closing brace.
#[derive(Drop)]
pub struct Task {
    pub name: Name,
    pub body: List<Stmt>,
    pub exit: Exit,
    pub close: Pos,
}

/// Where words live: nonvolatile, nonvolatile and constant, or volatile.
#[derive(Clone, Copy, PartialEq, Eq)]
pub enum Kind {
    Nv,
    Const,
    Vol,
}

/// A declaration.
#[derive(Drop)]
pub enum Decl {
    /// The kind, the name, the length where brackets give one, and the declared values.
    Words(Kind, Name, Option<u32>, Words),
    Pointer(Name),
    Peripheral(Name, u32),
}

/// A whole program.
#[derive(Drop)]
pub struct Program {
    pub decls: List<Decl>,
    pub tasks: List<Task>,
}
