//! Laws on where a program's words lie: no two places share an address, none is a cell of the code, and every statement of a
//! checked form suits the layout, so that the laws on its code hold of every program.
#![tactic(auto)]

mod laws;

pub use laws::{
    each_place_lies_in_its_area, every_statement_of_a_program_does_what_the_source_says,
    every_statement_suits_its_layout, no_place_is_a_cell_of_the_code,
    no_two_places_share_an_address,
};
