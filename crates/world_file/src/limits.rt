//! The sums of a world's steps and ticks.
ghost use Rattle.std.specs.Prelude.{◌≡◌, sum_by};
ghost use Rattle.devices.specs.World.{steps_of, ticks_of};
ghost use Rattle.world_file.specs.WorldFile as spec;

use devices::PowerRow;

/// All steps that the power rows last, or the greatest number of 64 bits.
pub fn steps_of(rows: &[PowerRow]) -> u64
    ensures { result ≡ spec.told (steps_of rows.now) }
{
    let mut steps: u64 = 0;
    'rows: for row in rows {
        steps = steps.saturating_add(u64::from(row.on));
    }
    steps
}

/// All ticks that the power rows and the failures behind them last, or the greatest number of 64 bits.
pub fn ticks_of(rows: &[PowerRow]) -> u64
    ensures { result ≡ spec.told (ticks_of rows.now) }
{
    let mut ticks: u64 = 0;
    'rows: for row in rows {
        ticks = ticks.saturating_add(u64::from(row.on) + u64::from(row.off));
    }
    ticks
}
