//! Reports as texts: what their lines tell, and which line of a broken one is refused.
#![tactic(auto)]

#[cfg(test)]
mod bed;
#[cfg(test)]
mod reports;
#[cfg(test)]
mod texts;
