//! Whether a run may end as its report says.
#![tactic(auto)]

mod end;

pub use end::end_fits;
