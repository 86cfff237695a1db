//! The checked form: names are numbers, parentheses are gone, loops with sites are unrolled.
//!
//! Arrays, pointers and peripherals are numbered from 0 in the order of their declarations, tasks and
//! sites from 1. A scalar is an array of length 1, and its index is the number 0.
use crate::tree::{Ann, Kind, Op1, Op2};
use ease_base::{Boxed, List, Peripheral, Text, Words};

/// An array, with one word for each of its places.
#[derive(Drop)]
pub struct Array {
    pub name: Text,
    pub kind: Kind,
    pub first: Words,
}

/// An expression.
#[derive(Drop)]
pub enum CoreExpr {
    Number(u32),
    /// An array and an index.
    Cell(u32, Boxed<CoreExpr>),
    /// A pointer that is indexed through, and an index.
    Through(u32, Boxed<CoreExpr>),
    One(Op1, Boxed<CoreExpr>),
    Two(Op2, Boxed<CoreExpr>, Boxed<CoreExpr>),
}

/// What is assigned.
#[derive(Drop)]
pub enum CoreTarget {
    /// An array and an index.
    Cell(u32, CoreExpr),
    /// A pointer that is indexed through, and an index.
    Through(u32, CoreExpr),
}

/// An end of a copy.
#[derive(Drop)]
pub enum CoreEnd {
    /// An array and an index.
    Cell(u32, CoreExpr),
    /// The place to which a pointer points.
    Pointer(u32),
}

/// A statement.
#[derive(Drop)]
pub enum CoreStmt {
    /// A target and a value.
    Assign(CoreTarget, CoreExpr),
    /// A pointer, an array and an index.
    Point(u32, u32, CoreExpr),
    If(CoreExpr, List<CoreStmt>, List<CoreStmt>),
    /// A variable, the number of turns, and a body without sites.
    Loop(u32, u32, List<CoreStmt>),
    /// A site, the reading's target, a peripheral, and arguments.
    Io(u32, Option<CoreTarget>, u32, List<CoreExpr>),
    /// A site and a body.
    Block(u32, List<CoreStmt>),
    /// A site, destination, source and length.
    Copy(u32, CoreEnd, CoreEnd, CoreExpr),
}

/// How a task ends.
#[derive(Drop)]
pub enum CoreExit {
    Next(u32),
    Stop,
    Choose(CoreExpr, Boxed<CoreExit>, Boxed<CoreExit>),
}

/// What stands at a site; a copy has its greatest length.
#[derive(Clone, Copy, PartialEq, Eq)]
pub enum Site {
    Io(Ann),
    Block(Ann),
    Copy(u32),
}

/// A task with its sites in order.
#[derive(Drop)]
pub struct CoreTask {
    pub name: Text,
    pub body: List<CoreStmt>,
    pub exit: CoreExit,
    pub sites: List<Site>,
}

/// A whole program.
#[derive(Drop)]
pub struct Core {
    pub arrays: List<Array>,
    pub pointers: List<Text>,
    pub peripherals: List<Peripheral>,
    pub tasks: List<CoreTask>,
}
