//! Tests of the base crates: files and sinks, tables of rows, memories, readings and the clock.
#![tactic(auto)]

#[cfg(test)]
mod files;
#[cfg(test)]
mod memories;
#[cfg(test)]
mod outside;
#[cfg(test)]
mod rows;
