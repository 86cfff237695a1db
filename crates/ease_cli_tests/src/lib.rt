//! Tests of `ease`: words and files in memory, and what they write.
#![tactic(auto)]

#[cfg(test)]
mod builds;
#[cfg(test)]
mod commands;
#[cfg(test)]
mod limits;
#[cfg(test)]
mod refusals;
#[cfg(test)]
mod runs;
#[cfg(test)]
mod sessions;
#[cfg(test)]
mod site_refusals;
#[cfg(test)]
mod walks;
#[cfg(test)]
mod worlds;
