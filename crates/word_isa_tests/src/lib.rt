//! Tests of instructions, of listings and of the parts of images.
#![tactic(auto)]

#[cfg(test)]
mod images;
#[cfg(test)]
mod words;
