//! From acts to runs: the code of acts in a row does on the machine what the plan's run says, cut anywhere.
#![tactic(auto)]

mod attempts;
mod boots;
mod rows;
mod whole;

pub use attempts::{
    a_boot_restores_as_planned, an_attempt_runs_as_planned, attempts_run_as_planned,
};
pub use boots::boots_run_as_planned;
pub use rows::{acts_in_a_row_run_as_planned, an_act_runs_at_its_place};
pub use whole::{a_program_without_sites_runs_its_plan, an_image_without_sites_runs_its_plan};
