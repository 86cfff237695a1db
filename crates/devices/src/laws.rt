//! What holds of every list of readings, as the contract of a function that does nothing.
ghost use Rattle.std.specs.Prelude.{◌≡◌, ◌+◌, ℕ, length, min};
ghost use Rattle.devices.specs.Reading.{reading};
ghost use Rattle.devices.specs.Readings.{one_more};

/// Behind any number of issues, over all boots, the count that is kept tells the next reading and the next count.
#[tactic(auto, using(crate::specs::ReadingLaws::reading_kept))]
pub fn kept_counts_tell_every_reading(values: &[u32])
    ensures reading { (k : ℕ) → reading values.now (min k (length values.now) + 1) ≡ reading values.now (k + 1) }
    ensures count { (k : ℕ) → one_more values.now (min k (length values.now)) ≡ min (k + 1) (length values.now) }
{}
