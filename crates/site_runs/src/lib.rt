//! From acts to runs: what is known between the acts of an attempt, and that looks, calls, copies, blocks and all statements lead
//! on under it, so that the code of a program runs its plan, cut anywhere.
#![tactic(auto)]

mod bodies;
mod calls;
mod copies;
mod looks;
mod whole;

pub use bodies::{blocks_lead_on, bodies_lead_on};
pub use calls::calls_lead_on;
pub use copies::copies_lead_on;
pub use looks::looks_lead_on;
pub use whole::{a_program_runs_its_plan, an_image_runs_its_plan};
