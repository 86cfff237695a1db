//! Laws on the plan of every program.
#![tactic(auto)]

mod laws;

pub use laws::{
    a_seal_behind_another_act_is_out_of_order,
    a_seal_behind_the_choice_of_its_transfer_is_out_of_order, acts_stand_in_order,
    every_act_is_of_its_task, saving_stands_in_its_place, sizes_are_within_their_limits,
};
