//! Tests of the calls of task_check, on trees that are built by hand.
#![tactic(auto)]

#[cfg(test)]
mod tests;
