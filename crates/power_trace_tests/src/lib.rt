//! Reports from outside: of small and malicious images, of each kind of event, and into sinks that fail.
#![tactic(auto)]

#[cfg(test)]
mod bed;
#[cfg(test)]
mod events;
#[cfg(test)]
mod images;
