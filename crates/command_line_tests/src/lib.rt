//! Tests of command lines: what each asks for. The expected answers were worked out by hand and by an independent model.
#![tactic(auto)]

#[cfg(test)]
mod lines;
