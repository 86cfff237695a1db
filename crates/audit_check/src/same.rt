//! Whether a told event is the one that the rules give.
ghost use Rattle.std.specs.Prelude.{◌≡◌};
ghost use Rattle.devices.specs.Journal.{begins, keeps, drops, issues, seals, copies, commits, traps};
ghost use Rattle.audit_check.specs.Journal.{event_of, place_of};
ghost use Rattle.audit_check.specs.Same.{alike, same, same_place};

use crate::journal::{ReportEvent, ReportPlace};

/// Whether it is the beginning of a task.
pub fn is_begin(e: &ReportEvent, task: u32) -> bool
    ensures { result ≡ same (event_of e.now) (begins task) }
{
    match e {
        ReportEvent::Begin(told) => *told == task,
        _ => false,
    }
}

/// Whether a site keeps a value.
pub fn is_kept(e: &ReportEvent, site: u32, value: u32) -> bool
    ensures { result ≡ same (event_of e.now) (keeps site value) }
{
    match e {
        ReportEvent::Kept(told, kept) => {
            if *kept != value {
                return false;
            }
            *told == site
        }
        _ => false,
    }
}

/// Whether a site's record is dropped.
pub fn is_drop(e: &ReportEvent, site: u32) -> bool
    ensures { result ≡ same (event_of e.now) (drops site) }
{
    match e {
        ReportEvent::Drop(told) => *told == site,
        _ => false,
    }
}

/// Whether a site's record is sealed.
pub fn is_seal(e: &ReportEvent, site: u32) -> bool
    ensures { result ≡ same (event_of e.now) (seals site) }
{
    match e {
        ReportEvent::Seal(told) => *told == site,
        _ => false,
    }
}

/// Whether a task commits.
pub fn is_commit(e: &ReportEvent, next: u32) -> bool
    ensures { result ≡ same (event_of e.now) (commits next) }
{
    match e {
        ReportEvent::Commit(told) => *told == next,
        _ => false,
    }
}

/// Whether it is this trap.
pub fn is_trap(e: &ReportEvent, code: u32) -> bool
    ensures { result ≡ same (event_of e.now) (traps code) }
{
    match e {
        ReportEvent::Trap(told) => *told == code,
        _ => false,
    }
}

/// Whether words are alike.
pub fn alike(told: &[u32], words: &[u32]) -> bool
    ensures { result ≡ alike told.now words.now }
{
    let Some((x, xs)) = told.split_first() else {
        return words.is_empty();
    };
    let Some((y, ys)) = words.split_first() else {
        return false;
    };
    if *x != *y {
        return false;
    }
    alike(xs, ys)
}

/// Whether ends of copies are the same.
pub fn same_place(told: ReportPlace, at: ReportPlace) -> bool
    ensures { result ≡ same_place (place_of told) (place_of at) }
{
    match (told, at) {
        (ReportPlace::Cell(a, i), ReportPlace::Cell(b, j)) => {
            if a != b {
                return false;
            }
            i == j
        }
        (ReportPlace::Keep, ReportPlace::Keep) => true,
        (ReportPlace::Address(x), ReportPlace::Address(y)) => x == y,
        _ => false,
    }
}

/// Whether a site issues a peripheral.
pub fn is_issue(e: &ReportEvent, site: u32, p: u32, args: &[u32], reading: u32) -> bool
    ensures { result ≡ same (event_of e.now) (issues site p args.now reading) }
{
    match e {
        ReportEvent::Issue(told, number, words, read) => {
            if *read != reading || *number != p {
                return false;
            }
            if !alike(words.as_slice(), args) {
                return false;
            }
            *told == site
        }
        _ => false,
    }
}

/// Whether a site copies so many words.
pub fn is_copy(e: &ReportEvent, site: u32, from: ReportPlace, to: ReportPlace, words: u32) -> bool
    ensures { result ≡ same (event_of e.now) (copies site (place_of from) (place_of to) words) }
{
    match e {
        ReportEvent::Copy(told, told_from, told_to, count) => {
            if *count != words || !same_place(*told_from, from) {
                return false;
            }
            if !same_place(*told_to, to) {
                return false;
            }
            *told == site
        }
        _ => false,
    }
}
