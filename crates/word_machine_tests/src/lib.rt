//! The machine from outside: each instruction, traps, events, transfers and failures.
#![tactic(auto)]

#[cfg(test)]
mod bed;
#[cfg(test)]
mod events;
#[cfg(test)]
mod instructions;
#[cfg(test)]
mod memory;
#[cfg(test)]
mod transfers;
