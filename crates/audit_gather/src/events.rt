//! What a line tells with a program's names.
ghost use Rattle.std.specs.Prelude.{◌≡◌, IfOk, take};
ghost use Rattle.devices.specs.Journal.{arguments_of};
ghost use Rattle.report_text.specs.Events.{journal_event, journal_place};
ghost use Rattle.audit_check.specs.Journal as journal;

use audit_check::{ReportEvent, ReportPlace};
use devices::Args;
use ease_base::{List, NoMemory, Words};
use report_text::EventPlace;
use std::alloc::Global;

// The first of some words, or all where there are fewer.
fn first_of(words: &[u32], n: usize) -> &[u32]
    ensures { result.now ≡ take n words.now }
{
    match words.get(..n) {
        Some(first) => first,
        None => words,
    }
}

// The arguments of an issue as a list.
fn words_of(alloc: Global, args: Args) -> Result<Words, NoMemory>
    ensures { IfOk result (λ words. words ≡ arguments_of args) }
{
    let all = [args.a0, args.a1, args.a2, args.a3];
    let words = List::from_slice(alloc, first_of(&all, usize::from(args.count)))?;
    Ok(words)
}

// An end of a copy. No program has so many arrays that they can't be counted.
fn place_of(place: EventPlace) -> Result<ReportPlace, NoMemory>
    ensures { IfOk result (λ at. journal.place_of at ≡ journal_place place) }
{
    match place {
        EventPlace::Cell(array, index) => {
            let array = u32::try_from(array).map_err(|_| NoMemory)?;
            Ok(ReportPlace::Cell(array, index))
        }
        EventPlace::Keep => Ok(ReportPlace::Keep),
        EventPlace::Address(at) => Ok(ReportPlace::Address(at)),
    }
}

/// An event as the walk takes it.
pub fn event_of(alloc: Global, event: report_text::ReportEvent) -> Result<ReportEvent, NoMemory>
    ensures { IfOk result (λ e. journal.event_of e ≡ journal_event event) }
{
    match event {
        report_text::ReportEvent::Begin(task) => Ok(ReportEvent::Begin(task)),
        report_text::ReportEvent::Look(site, time) => Ok(ReportEvent::Look(site, time)),
        report_text::ReportEvent::Kept(site, value) => Ok(ReportEvent::Kept(site, value)),
        report_text::ReportEvent::Drop(site) => Ok(ReportEvent::Drop(site)),
        report_text::ReportEvent::Issue(site, p, args, reading) => {
            let words = words_of(alloc, args)?;
            Ok(ReportEvent::Issue(site, u32::from(p), words, reading))
        }
        report_text::ReportEvent::Seal(site) => Ok(ReportEvent::Seal(site)),
        report_text::ReportEvent::Copy(site, from, to, words) => {
            let from = place_of(from)?;
            let to = place_of(to)?;
            Ok(ReportEvent::Copy(site, from, to, words))
        }
        report_text::ReportEvent::Commit(next) => Ok(ReportEvent::Commit(next)),
        report_text::ReportEvent::Trap(code) => Ok(ReportEvent::Trap(code)),
    }
}
