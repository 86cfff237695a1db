//! Tests of plans, on programs as texts.
#![tactic(auto)]

#[cfg(test)]
mod plans;
