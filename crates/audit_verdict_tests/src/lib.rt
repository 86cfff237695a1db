//! Tests of audits, on programs, worlds and reports as texts.
#![tactic(auto)]

#[cfg(test)]
mod audits;
