//! Where the code of a plan lies in its image, and that the machine halts behind the last commit.
#![tactic(auto)]

mod laws;

pub use laws::{a_stop_halts, the_code_of_a_plan_lies_in_its_image};
