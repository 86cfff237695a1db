//! Tests of `ease audit`: a program, a world and a report in memory, and what is answered.
#![tactic(auto)]

#[cfg(test)]
mod answers;
