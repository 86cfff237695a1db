//! The account of a program's sites: where each stands, how it is marked, and what a new result of it forces.
#![tactic(auto)]

mod account;
mod laws;
mod members;
mod parts;
mod places;
mod regions;
mod sites;
mod view;

pub use account::account_text;
pub use laws::each_site_has_its_place;
pub use places::{SitePlace, SiteWord, site_places};
