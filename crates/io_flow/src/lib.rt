//! Where words of I/O calls flow: two runs of a task agree at a site where they agree on all that flows into it.
#![tactic(auto)]

mod laws;

pub use laws::what_a_site_is_valued_at_is_told_by_what_flows_into_it;
