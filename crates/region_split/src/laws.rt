//! What holds of regions in every task, as the contracts of functions that do nothing.
ghost use Rattle.std.specs.Prelude.{◌≡◌, ◌<◌, ℕ, true, false};
ghost use Rattle.io_depend.specs.Laws.{Ascends};
ghost use Rattle.io_depend.specs.Sets.{has};
ghost use Rattle.region_split.specs.Regions.{first};

use task_ast::{Core, CoreTask};

/// No array is among those that two regions write first.
pub fn no_array_is_in_two_regions(c: &Core, t: &CoreTask)
    ensures { (region later array : ℕ) → region < later → has (first c.now t.now region) array ≡ true → has (first c.now t.now later) array ≡ false }
{}

/// The arrays that a region writes first ascend, so none stands twice.
#[tactic(auto, using(io_depend::specs::RangeLaws::filter_ascends))]
pub fn first_arrays_ascend(c: &Core, t: &CoreTask)
    ensures { (region : ℕ) → Ascends (first c.now t.now region) }
{}
