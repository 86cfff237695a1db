//! What the plan of every program does over power failures: what the rules of attempts say.
#![tactic(auto)]

mod laws;

pub use laws::{
    a_cell_says_nothing_before_its_flag, a_cleared_flag_drops_its_record, a_flag_makes_its_record,
    a_new_epoch_drops_every_record, a_plan_goes_on, a_plan_shows_what_the_rules_expect,
    a_plan_stays_within_the_steps, a_trap_of_a_plan_is_walked, every_run_of_a_plan_is_sound,
    the_acts_of_a_block_do_what_the_rules_say, the_acts_of_a_call_do_what_the_rules_say,
    the_acts_of_a_copy_do_what_the_rules_say, what_a_plan_commits_is_walked,
};
