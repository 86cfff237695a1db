//! Tests of the run of checked programs, made by hand.
#![tactic(auto)]

#[cfg(test)]
mod made;
#[cfg(test)]
mod runs;
#[cfg(test)]
mod stores;
