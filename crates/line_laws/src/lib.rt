//! Laws on the code of expressions and of statements without sites: on the machine it does what the source says.
#![tactic(auto)]

mod laws;

pub use laws::{
    the_code_of_a_place_gives_its_address, the_code_of_a_statement_does_what_the_source_says,
    the_code_of_a_target_gives_its_address, the_code_of_an_expression_gives_its_value,
};
