//! Tests of dependence and of regions, on programs as texts.
#![tactic(auto)]

#[cfg(test)]
mod tasks;
