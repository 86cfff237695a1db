//! A test of `ease build` beside the calls that it makes.
#![tactic(auto)]

#[cfg(test)]
mod station;
