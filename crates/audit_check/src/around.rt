//! What the walk of a task goes by.
ghost use Rattle.std.specs.Prelude.{◌≡◌, ◌+◌, ◌<◌, Some, slice_get};
ghost use Rattle.task_attempts.specs.Calls as calls;
ghost use Rattle.task_attempts.specs.Copies.{memory_or_ram};
ghost use Rattle.region_split.specs.Class.{memory_of};
ghost use Rattle.io_annot.specs.Choice.{choice};
ghost use Rattle.block_scope.specs.Enter.{entered};
ghost use Rattle.audit_check.specs.Walked as spec;

use block_scope::enter;
use io_annot::{Choice, Mode, decide};
use io_depend::Depends;
use region_split::Memory;
use task_ast::{Ann, Core, CoreTask, Kind, Site};
use walk_run::Place;

/// A program, a task of it, and which of its sites depend on which.
#[derive(Clone, Copy)]
pub struct Around<'a> {
    pub core: &'a Core,
    pub task: &'a CoreTask,
    pub depends: &'a Depends,
}

// The annotation of a site; a copy has none.
fn annotation_of(site: Site) -> Ann
    ensures { result ≡ calls.annotation_of (Some site) }
{
    match site {
        Site::Io(ann) => ann,
        Site::Block(ann) => ann,
        Site::Copy(_) => Ann::Always,
    }
}

// The annotation at a place of a list of sites.
fn annotation_in(sites: &[Site], place: usize) -> Ann
    ensures { result ≡ calls.annotation_of (slice_get sites.now place) }
{
    match sites.get(place) {
        Some(site) => annotation_of(*site),
        None => Ann::Always,
    }
}

// The memory of an array's words.
fn memory_of(kind: Kind) -> Memory
    ensures { result ≡ memory_of kind }
{
    match kind {
        Kind::Nv => Memory::Fram,
        Kind::Const => Memory::ConstFram,
        Kind::Vol => Memory::Ram,
    }
}

/// The annotation at a site.
#[tactic(auto, using(crate::proofs::WalkLemmas::site_before))]
pub fn annotation_at(around: &Around, site: u32) -> Ann
    ensures { result ≡ spec.annotation_at around.now site }
{
    if site == 0 {
        return Ann::Always;
    }
    annotation_in(around.task.sites.as_slice(), site as usize - 1)
}

/// The number by which a peripheral is known outside.
pub fn number_at(around: &Around, p: u32) -> u32
    ensures { result ≡ spec.number_at around.now p }
{
    match around.core.peripherals.as_slice().get(p as usize) {
        Some(peripheral) => u32::from(peripheral.number),
        None => 0,
    }
}

/// The memory of a place's words.
pub fn memory_at(around: &Around, at: Place) -> Memory
    ensures { result ≡ spec.memory_at around.now at }
{
    match around.core.arrays.as_slice().get(at.array as usize) {
        Some(array) => memory_of(array.kind),
        None => Memory::Ram,
    }
}

/// What a site does at a look that may lie behind its record's.
#[tactic(auto, using(crate::proofs::WalkLemmas::choice_behind))]
pub fn decide_at(mode: Mode, ann: Ann, kept: Option<(u32, u32)>, t: u32) -> Choice
    ensures { result ≡ choice mode ann kept t }
{
    let Some((value, stamp)) = kept else {
        return decide(mode, ann, None, t);
    };
    if stamp <= t {
        decide(mode, ann, Some((value, stamp)), t)
    } else {
        decide(mode, ann, Some((value, stamp)), stamp)
    }
}

/// The mode inside a block at a look that may lie behind its record's.
#[tactic(auto, using(crate::proofs::WalkLemmas::entered_behind))]
pub fn enter_at(mode: Mode, ann: Ann, kept: Option<u32>, t: u32) -> Mode
    ensures { result ≡ entered mode ann kept t }
{
    let Some(stamp) = kept else {
        return enter(mode, ann, None, t);
    };
    if stamp <= t {
        enter(mode, ann, Some(stamp), t)
    } else {
        enter(mode, ann, Some(stamp), stamp)
    }
}
