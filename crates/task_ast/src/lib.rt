//! Programs as they are read, and the checked form that every later layer works on.
#![tactic(auto)]

mod core_form;
pub mod limits;
mod tree;

pub use core_form::{
    Array, Core, CoreEnd, CoreExit, CoreExpr, CoreStmt, CoreTarget, CoreTask, Site,
};
pub use tree::{Ann, Decl, Exit, Expr, Kind, Name, Op1, Op2, Place, Program, Stmt, Target, Task};
