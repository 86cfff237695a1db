//! Tests of image files.
#![tactic(auto)]

#[cfg(test)]
mod images;
