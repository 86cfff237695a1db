//! The acts of a plan. What one does in small steps, each of which writes at most one cell of FRAM, is docs/PLAN.md.
use ease_base::List;
use task_ast::{CoreExpr, CoreStmt};

/// Where a transfer goes from and to.
#[derive(Clone, Copy, Debug, PartialEq, Eq)]
pub enum Leg {
    /// From the source to the destination.
    Across,
    /// From the source to the kept words.
    ToKept,
    /// From the kept words to the destination.
    FromKept,
}

/// An act. The number is a region in `Restore`, `Save` and `Lock`, a task in `Begin`, the next task or 0 in `Commit`,
/// and a site in all others.
#[derive(Drop)]
pub enum Act {
    /// The saved words of a region of the running task are put back, where its lock holds.
    Restore(u32),
    /// An attempt begins: volatile words are as declared, pointers point to nothing.
    Begin(u32),
    /// The words that a region may write first are copied aside, unless its lock holds.
    Save(u32),
    /// The lock of a region is set.
    Lock(u32),
    /// A statement without sites.
    Plain(CoreStmt),
    /// A condition, the acts where it isn't 0, and those where it is.
    Test(CoreExpr, List<Act>, List<Act>),
    /// A call's target and arguments, or a copy's ends and length, are valued and tested.
    Value(u32),
    /// A look at the clock.
    Look(u32),
    /// The acts that issue, and those that keep; at a copy those without a record, and those with one.
    Choose(u32, List<Act>, List<Act>),
    /// The record is dropped.
    Drop(u32),
    /// The peripheral is issued with the arguments that were valued.
    Issue(u32),
    /// The record is sealed.
    Seal(u32),
    /// The record's value is taken.
    Take(u32),
    /// The word that was read or taken goes to the target.
    Write(u32),
    /// The mode inside a block is worked out.
    Enter(u32),
    /// The mode outside is back; the acts of a block's end where it didn't keep.
    Leave(u32, List<Act>),
    /// The acts of a copy of class Single, of class Private, and of the others.
    ByClass(u32, List<Act>, List<Act>, List<Act>),
    /// The engine moves a copy's words.
    Transfer(u32, Leg),
    /// The words at the destination are kept.
    KeepWords(u32),
    /// The kept words are put to the destination.
    PutWords(u32),
    /// The one write that ends an instance.
    Commit(u32),
}
