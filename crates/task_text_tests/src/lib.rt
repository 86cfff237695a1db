//! Texts that are programs, texts that are none, and the refusal of each.
#![tactic(auto)]

#[cfg(test)]
mod cuts;
#[cfg(test)]
mod depths;
#[cfg(test)]
mod drawn;
#[cfg(test)]
mod expect;
#[cfg(test)]
mod grammar;
#[cfg(test)]
mod printing;
#[cfg(test)]
mod sites;
#[cfg(test)]
mod tokens;
