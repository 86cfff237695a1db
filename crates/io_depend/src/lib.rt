//! Which later sites depend on an I/O call, and to which arrays a pointer may point.
#![tactic(auto)]

mod depends;
mod laws;
mod pass;
mod points;
mod reads;
mod rows;
mod spread;

pub use depends::{Depends, depend};
pub use laws::{
    dependents_come_later, no_statement_removes_a_site, pointed_arrays_ascend,
    statements_behind_a_site_change_nothing,
};
