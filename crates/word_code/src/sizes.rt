//! How many lines the code of acts has, wherever it stands. Sizes stop at the greatest `u32`.
ghost use Rattle.std.specs.Prelude.{◌≡◌, ◌-◌, ◌^◌, min};
ghost use Rattle.std.specs.Option.{option_copied};
ghost use Rattle.word_code.specs.Acts.{count_of};
ghost use Rattle.word_code.specs.Beginnings as beginnings;
ghost use Rattle.word_code.specs.Sizes as spec;
ghost use Rattle.word_code.specs.Tables as tables;
ghost use Rattle.word_code.specs.Values as values;
ghost use Rattle.word_code.specs.Fitting.{IsFit, AreFit};

use crate::beginnings::{first_of, level_count, volatile_count};
use crate::finding::find;
use crate::frame::Frame;
use crate::tables::ann_of;
use line_code::{Placed, area_at, expr_size, statement_size, target_size};
use run_plan::Act;
use task_ast::{Ann, CoreEnd, CoreExpr, CoreStmt, CoreTarget, Site};

fn own_size(ann: Ann) -> u32
    ensures { result ≡ tables.own_size ann }
{
    match ann {
        Ann::Single => 2,
        Ann::Timely(_) => 8,
        Ann::Always => 1,
    }
}

fn keeps_size(s: Option<Site>) -> u32
    ensures { result ≡ tables.keeps_size s }
{
    match s {
        Some(Site::Io(ann)) => own_size(ann) + 10,
        Some(Site::Block(_)) | Some(Site::Copy(_)) | None => 2,
    }
}

fn seal_size(s: Option<Site>) -> u32
    ensures { result ≡ spec.seal_size s }
{
    match s {
        Some(Site::Io(_)) => 5,
        Some(Site::Block(_)) => 3,
        Some(Site::Copy(_)) | None => 9,
    }
}

fn write_size(s: Option<&CoreStmt>) -> u32
    ensures { result ≡ spec.write_size (option_copied s.entry) }
{
    match s {
        Some(CoreStmt::Io(_, Some(_), _, _)) => 3,
        _ => 0,
    }
}

fn count_of(s: Option<&CoreStmt>) -> u32
    ensures { result ≡ min (count_of (option_copied s.entry)) (2 ^ 32 - 1) }
{
    match s {
        Some(CoreStmt::Io(_, _, _, args)) => args.len().min(u32::MAX as usize) as u32,
        _ => 0,
    }
}

fn aim_size(x: &Option<CoreTarget>) -> u32
    ensures { result ≡ min (values.aim_size x.now) (2 ^ 32 - 1) }
{
    match x {
        None => 0,
        Some(x) => target_size(x).saturating_add(1),
    }
}

fn args_size(args: &[CoreExpr]) -> u32
    ensures { result ≡ min (values.args_size args.now) (2 ^ 32 - 1) }
{
    let mut size = 0u32;
    'arguments: for e in args {
        size = size.saturating_add(expr_size(e)).saturating_add(1);
    }
    size
}

fn end_size(end: &CoreEnd) -> u32
    ensures { result ≡ min (values.end_size end.now) (2 ^ 32 - 1) }
{
    match end {
        CoreEnd::Cell(_, index) => expr_size(index).saturating_add(11),
        CoreEnd::Pointer(_) => 8,
    }
}

fn value_size(s: Option<&CoreStmt>) -> u32
    ensures { result ≡ min (values.value_size (option_copied s.entry)) (2 ^ 32 - 1) }
{
    match s {
        Some(CoreStmt::Io(_, x, _, args)) => {
            aim_size(x).saturating_add(args_size(args.as_slice()))
        }
        Some(CoreStmt::Copy(_, to, from, words)) => {
            let ends = end_size(to).saturating_add(end_size(from));
            ends.saturating_add(expr_size(words)).saturating_add(20)
        }
        _ => 0,
    }
}

fn homes_size(areas: &[Placed], arrays: &[u32]) -> u32
    ensures { result ≡ min (beginnings.homes_size areas.now arrays.now) (2 ^ 32 - 1) }
{
    let mut size = 0u32;
    'arrays: for array in arrays {
        size = size.saturating_add(2 * area_at(areas, *array).room as u32);
    }
    size
}

fn region_size(f: &Frame, region: u32) -> u32
    ensures { result ≡ min (spec.region_size f.now region) (2 ^ 32 - 1) }
{
    homes_size(f.areas, first_of(f, region))
}

fn begin_size(f: &Frame) -> u32
    ensures { result ≡ beginnings.begin_size f.now }
{
    let arrays = f.core.arrays.as_slice();
    let pointers = f.core.pointers.len() as u32;
    2 + 2 * pointers + 3 * volatile_count(arrays) + 2 * level_count(f.scheme, arrays) as u32
}

// An act without lists that jumps nowhere but to the next act, beside that jump.
fn simple_size(f: &Frame, a: &Act) -> u32
    requires { IsFit f.now a.now }
    ensures { result ≡ min (spec.simple_size f.now a.now) (2 ^ 32 - 1) }
{
    let body = f.task.body.as_slice();
    match a {
        Act::Begin(_) => begin_size(f),
        Act::Lock(_) | Act::Drop(_) => 1,
        Act::Plain(s) => statement_size(s),
        Act::Value(k) => value_size(find(body, *k)),
        Act::Look(_) => 2,
        Act::Issue(k) => count_of(find(body, *k)).saturating_add(2),
        Act::Seal(k) => seal_size(f.site(*k)),
        Act::Take(_) => 3,
        Act::Write(k) => write_size(find(body, *k)),
        Act::Enter(k) => own_size(ann_of(f.site(*k))) + 12,
        Act::Transfer(..) => 4,
        _ => 0,
    }
}

/// The lines of an act. A region that the task hasn't is not restored.
#[cycle(acts)]
pub fn act_size(f: &Frame, a: &Act) -> u32
    requires { IsFit f.now a.now }
    ensures { result ≡ min (spec.act_size f.now a.now) (2 ^ 32 - 1) }
{
    match a {
        Act::Restore(r) => {
            if (*r as usize) < f.firsts.len() {
                region_size(f, *r).saturating_add(6)
            } else {
                0
            }
        }
        Act::Save(r) => region_size(f, *r).saturating_add(5),
        Act::Test(c, yes_part, no_part) => {
            let parts = acts_size(f, yes_part.as_slice());
            let parts = parts.saturating_add(acts_size(f, no_part.as_slice()));
            parts.saturating_add(expr_size(c)).saturating_add(4)
        }
        Act::Choose(k, issue_part, keep_part) => {
            let parts = acts_size(f, issue_part.as_slice());
            let parts = parts.saturating_add(acts_size(f, keep_part.as_slice()));
            parts.saturating_add(keeps_size(f.site(*k)) + 3)
        }
        Act::Leave(_, part) => acts_size(f, part.as_slice()).saturating_add(8),
        Act::ByClass(_, single, private, rest) => {
            let parts = acts_size(f, single.as_slice());
            let parts = parts.saturating_add(acts_size(f, private.as_slice()));
            let parts = parts.saturating_add(acts_size(f, rest.as_slice()));
            parts.saturating_add(12)
        }
        Act::KeepWords(_) => 13,
        Act::PutWords(_) => 14,
        Act::Commit(_) => 25,
        _ => simple_size(f, a).saturating_add(1),
    }
}

/// The lines of acts, one after another.
#[cycle(acts)]
pub fn acts_size(f: &Frame, acts: &[Act]) -> u32
    requires { AreFit f.now acts.now }
    ensures { result ≡ min (spec.acts_size f.now acts.now) (2 ^ 32 - 1) }
{
    let mut size = 0u32;
    'acts: for a in acts {
        size = size.saturating_add(act_size(f, a));
    }
    size
}
