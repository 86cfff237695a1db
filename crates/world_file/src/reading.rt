//! Reads the bytes of a world file, or tells the first test that they fail.
ghost use Rattle.std.specs.Prelude.{◌≡◌, ◌≢◌, Some, None, IfOk, IfErr, MatchResult};
ghost use Rattle.toml.specs.View.{table_view};
ghost use Rattle.devices.specs.World.{AreDistinct, IsWithinLimits};
ghost use Rattle.devices.specs.declared.world.World.{World};
ghost use Rattle.world_file.specs.Document.{document};
ghost use Rattle.world_file.specs.Peripherals.{AreApart};
ghost use Rattle.world_file.specs.WorldFile as spec;

use crate::error::WorldError;
use crate::keys::{has_known_keys, has_known_names};
use crate::limits::{steps_of, ticks_of};
use crate::parts::table_world;
use crate::values::has_good_values;
use devices::{PowerRow, World};
use ease_base::{List, Peripheral};
use std::alloc::Global;
use toml::value::Table;

/// The world that the bytes are, or the first test that they fail (docs/FORMATS.md, "World files"). `names` are the
/// peripherals of the program or the image; no two have one name or one number. A world that is answered is within
/// the limits.
pub fn read_world(
    alloc: Global,
    bytes: &[u8],
    names: &List<Peripheral>,
) -> Result<World, WorldError>
    requires apart { AreApart names.now }
    // the world of these bytes, or the first test that fails
    ensures found { IfOk result (λ w. spec.world_of bytes.now names.now ≡ Some w) }
    ensures refused { IfErr result (λ fault. fault ≢ WorldError.NoMemory → spec.world_fault bytes.now names.now ≡ Some fault) }
    // a world is refused only for want of memory
    ensures only { (w : World) → spec.world_of bytes.now names.now ≡ Some w → MatchResult result (λ v. v ≡ w) (λ fault. fault ≡ WorldError.NoMemory) }
    ensures within { IfOk result IsWithinLimits }
{
    world_at(alloc, bytes, names)
}

// The world that the bytes are, or the first test that they fail.
#[tactic(auto, using(crate::proofs::AnswerLemmas::no_table, crate::proofs::AnswerLemmas::answer_of_table))]
fn world_at(alloc: Global, bytes: &[u8], names: &List<Peripheral>) -> Result<World, WorldError>
    requires apart { AreApart names.now }
    ensures is { spec.Answers (spec.world_fault bytes.now names.now) (λ w. spec.world_of bytes.now names.now ≡ Some w) result }
    ensures within { IfOk result IsWithinLimits }
{
    match top_of(alloc, bytes) {
        Ok(top) => world_in(alloc, names, &top),
        Err(fault) => Err(fault),
    }
}

// The top table of a file.
#[tactic(auto, using(crate::proofs::DocumentLemmas::document_is, crate::proofs::DocumentLemmas::no_document))]
fn top_of(alloc: Global, bytes: &[u8]) -> Result<Table, WorldError>
    ensures { spec.IsTop (document bytes.now) result }
{
    match toml::table_from_slice(alloc, bytes) {
        Ok(top) => Ok(top),
        Err(e) => {
            if e.is_memory() {
                return Err(WorldError::NoMemory);
            }
            Err(WorldError::NotToml)
        }
    }
}

// The world of a top table, or the first test that it fails.
#[tactic(auto, unfolding(crate::specs::WorldFile::table_fault))]
fn world_in(alloc: Global, names: &List<Peripheral>, top: &Table) -> Result<World, WorldError>
    requires apart { AreApart names.now }
    ensures is { spec.Answers (spec.table_fault names.now (table_view top.now)) (λ w. w ≡ spec.table_world names.now (table_view top.now)) result }
    ensures within { IfOk result IsWithinLimits }
{
    if !has_known_keys(top) {
        return Err(WorldError::BadKey);
    }
    if !has_good_values(top) {
        return Err(WorldError::BadValue);
    }
    if !has_known_names(names, top) {
        return Err(WorldError::UnknownPeripheral);
    }
    let world = table_world(alloc, names, top)?;
    match sums_fault(world.power.as_slice()) {
        Some(fault) => Err(fault),
        None => Ok(world),
    }
}

// The first sum of the power rows that is too great.
#[tactic(auto, unfolding(crate::specs::WorldFile::sums_fault))]
fn sums_fault(rows: &[PowerRow]) -> Option<WorldError>
    ensures { result ≡ spec.sums_fault rows.now }
{
    let steps = steps_of(rows);
    if steps > 4_194_304 {
        return Some(WorldError::TooManySteps(steps));
    }
    let ticks = ticks_of(rows);
    if ticks > 4_294_967_295 {
        return Some(WorldError::TooManyTicks(ticks));
    }
    None
}
