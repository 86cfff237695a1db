//! The table of I/O sites: keep the recorded value, or issue.
ghost use Rattle.std.specs.Prelude.{◌≡◌, ◌≤◌, OnSome};
ghost use Rattle.io_annot.specs.Choice.{choice, is_expired, own_choice, stamp_of};

use task_ast::Ann;

/// What is around a site, as far as it decides for the site.
#[derive(Clone, Copy, PartialEq, Eq)]
pub enum Mode {
    /// Nothing: the site's own annotation decides.
    Own,
    /// A block that was done before: what has a record is kept.
    Keep,
    /// A block that is to be done anew: everything is issued.
    Force,
}

/// What an I/O site does.
#[derive(Clone, Copy, PartialEq, Eq)]
pub enum Choice {
    /// It keeps the value of its record.
    Keep(u32),
    /// It issues its operation.
    Issue,
}

/// Whether a record made at `stamp` is too old at time `t` for an annotation that allows so many ticks.
pub fn is_expired(ticks: u32, stamp: u32, t: u32) -> bool
    requires { stamp ≤ t }
    ensures { result ≡ is_expired ticks stamp t }
{
    t - stamp > ticks
}

/// What an I/O site does at its look at time `t`, with its record as value and stamp (docs/LANGUAGE.md,
/// "Annotations"). A stamp is the time of an earlier look.
pub fn decide(mode: Mode, ann: Ann, kept: Option<(u32, u32)>, t: u32) -> Choice
    requires past { OnSome kept (stamp_of kept ≤ t) }
    ensures { result ≡ choice mode ann kept t }
{
    let Some((value, stamp)) = kept else {
        return Choice::Issue;
    };
    match mode {
        Mode::Keep => Choice::Keep(value),
        Mode::Force => Choice::Issue,
        Mode::Own => own_choice(ann, value, stamp, t),
    }
}

// What a site does by its own annotation, with a record.
fn own_choice(ann: Ann, value: u32, stamp: u32, t: u32) -> Choice
    requires { stamp ≤ t }
    ensures { result ≡ own_choice ann value stamp t }
{
    match ann {
        Ann::Single => Choice::Keep(value),
        Ann::Timely(ticks) if is_expired(ticks, stamp, t) => Choice::Issue,
        Ann::Timely(_) => Choice::Keep(value),
        Ann::Always => Choice::Issue,
    }
}
