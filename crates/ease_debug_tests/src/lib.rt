//! Sessions and scripts from outside, on images written by hand.
#![tactic(auto)]

#[cfg(test)]
mod bed;
#[cfg(test)]
mod scripts;
#[cfg(test)]
mod sessions;
