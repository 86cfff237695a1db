//! Tests of the account of sites, on programs as texts.
#![tactic(auto)]

#[cfg(test)]
mod accounts;
