//! World files as texts: what they tell, and what each change of one place is refused as.
#![tactic(auto)]

#[cfg(test)]
mod bed;
#[cfg(test)]
mod refusals;
#[cfg(test)]
mod worlds;
