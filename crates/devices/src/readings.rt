//! The readings of the peripherals, which are taken in order, and how many of them were taken.
ghost use Rattle.std.specs.Prelude.{◌≡◌, ◌+◌, ℕ, length, min, slice_index_or, vec_len, IfOk};
ghost use Rattle.devices.specs.Reading.{reading, values_in};
ghost use Rattle.devices.specs.Readings.{silent, values_of, issued_of, one_more, issued_after};
ghost use Rattle.devices.specs.World.{AreDistinct};

use crate::world::Feed;
use ease_base::{List, NoMemory, Words};
use std::alloc::Global;
use std::marker::Model;

// The peripherals have the numbers 0 to 255.
const PERIPHERALS: u32 = 256;

// The readings of one peripheral, and how many of them were taken.
#[derive(Drop)]
struct Series {
    values: Words,
    issued: usize,
}

impl Model for Series {
    ghost use Rattle.std.specs.Prelude.{◌≤◌, length};
    ghost use Rattle.devices.specs.Readings.{Series};

    ghost Value = { Series };

    ghost view = { λ s. record { values = s.values; issued = s.issued } };

    ghost invariant = { λ s. s.issued ≤ length s.values };
}

impl Series {
    // No reading of `values` is taken.
    fn make(alloc: Global, values: &[u32]) -> Result<Series, NoMemory>
        ensures { IfOk result (λ s. s ≡ record { values = values.now; issued = 0 }) }
    {
        Ok(Series {
            values: Words::from_slice(alloc, values)?,
            issued: 0,
        })
    }

    // Takes the next reading; past the end the last one, and 0 where there is none.
    #[tactic(auto, unfolding(crate::specs::Reading::reading))]
    fn issue(&mut self) -> u32
        ensures reading { result ≡ reading self.old.values (self.old.issued + 1) }
        ensures after { self.new ≡ record self.old { issued = one_more self.old.values self.old.issued } }
    {
        let values = self.values.as_slice();
        match values.get(self.issued) {
            Some(value) => {
                self.issued += 1;
                *value
            }
            None => values.last().copied().unwrap_or(0),
        }
    }
}

// The readings of all peripherals, none of which has any.
fn silent_series(alloc: Global) -> Result<Vec<Series>, NoMemory>
    ensures count { IfOk result (λ v. vec_len v ≡ 256) }
    ensures silent { IfOk result (λ v. (k : ℕ) → slice_index_or v.items k silent ≡ silent) }
{
    let mut series = Vec::with_capacity(alloc, PERIPHERALS as usize)?;
    'peripherals: for _number in 0..PERIPHERALS {
        series.push(Series::make(alloc, &[])?)?;
    }
    Ok(series)
}

/// The readings of all peripherals, by their numbers.
#[derive(Drop)]
pub struct Readings {
    series: Vec<Series>,
}

impl Model for Readings {
    ghost use Rattle.std.specs.Prelude.{◌≡◌, List, length};
    ghost use Rattle.devices.specs.Readings.{Series as series_value};

    ghost Value = { List series_value };

    ghost view = { λ r. r.series.items };

    ghost invariant = { λ r. length r.series.items ≡ 256 };
}

impl Readings {
    /// The readings of the feeds, none of them taken; a peripheral without a feed has none.
    pub fn make(alloc: Global, feeds: &List<Feed>) -> Result<Readings, NoMemory>
        requires { AreDistinct feeds.now }
        ensures values { IfOk result (λ r. values_of r ≡ values_in feeds.now) }
        ensures issued { IfOk result (λ r. issued_of r ≡ λ _. 0) }
    {
        let mut series = silent_series(alloc)?;
        let feeds = feeds.as_slice();
        'feeds: for feed in feeds {
            series[feed.number as usize] = Series::make(alloc, feed.values.as_slice())?;
        }
        Ok(Readings { series })
    }

    /// Takes the next reading of a peripheral; past the end of its list the last one, and 0 where it has none. No
    /// other peripheral's count changes.
    pub fn issue(&mut self, p: u8) -> u32
        ensures reading { result ≡ reading (values_of self.old p) (issued_of self.old p + 1) }
        ensures every { (k : ℕ) → issued_of self.old p ≡ min k (length (values_of self.old p))
            → result ≡ reading (values_of self.old p) (k + 1) }
        ensures values { values_of self.new ≡ values_of self.old }
        ensures issued { issued_of self.new ≡ issued_after (values_of self.old) (issued_of self.old) p }
    {
        self.series[p as usize].issue()
    }
}
