//! The unbroken run of a checked program, and its printed states.
#![tactic(auto)]

mod arrays;
mod calls;
mod copies;
mod laws;
mod live;
mod operators;
mod place;
mod places;
mod plain;
mod readings;
mod run;
mod task;
mod text;
mod trap;
mod value;
mod walked;

pub use laws::{
    a_constant_never_changes, a_run_ends_only_as_its_program_may, a_run_is_a_front_of_longer_runs,
    a_store_keeps_its_shape, a_task_depends_on_the_nonvolatile_words_alone,
    every_state_has_the_declared_sizes, reads_see_the_last_write, the_states_tell_the_end,
    writes_give_the_store,
};
pub use live::Live;
pub use place::Place;
pub use run::walk;
pub use text::walk_text;
pub use trap::Trap;
pub use walked::{State, WalkEnd, Walked};
