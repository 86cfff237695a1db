//! The run of an image on a world.
ghost use Rattle.std.specs.Prelude.{◌≡◌, ◌≤◌, IfOk, OnOk, IsErrOf};
ghost use Rattle.devices.specs.World.{IsWithinLimits};
ghost use Rattle.ease_base.specs.Count.{HasRisen};
ghost use Rattle.ease_base.specs.Sink.{extended, TookFront};
ghost use Rattle.power_trace.specs.Run.{journal_on, report_on};
ghost use Rattle.power_trace.specs.declared.error.RunError.TheVariants as fails;

use crate::error::RunError;
use crate::runner::Runner;
use devices::{RunEnd, World};
use ease_base::Sink;
use std::alloc::Global;
use word_isa::Image;

/// Writes the report of an image on a world, as docs/MACHINE.md says under "The report", and gives how the run ended. All
/// memory is taken first: after `NoMemory` nothing was written. After `WriteFault` a front of the report was taken.
pub fn run<K: Sink>(
    alloc: Global,
    image: &Image,
    world: &World,
    brief: bool,
    out: &mut K,
) -> Result<RunEnd, RunError>
    requires { IsWithinLimits world.now }
    ensures whole { OnOk result (K.taken out.new ≡ extended (K.taken out.old) (report_on image.now world.now brief)) }
    ensures end { IfOk result (λ end. end ≡ (journal_on image.now world.now).ending) }
    ensures front { TookFront (K.taken out.old) (K.taken out.new) (report_on image.now world.now brief) }
    ensures no_memory { IsErrOf result fails.NoMemory → (K.taken out.new ≡ K.taken out.old) × (K.faults out.new ≡ K.faults out.old) }
    ensures fault { IsErrOf result fails.WriteFault → HasRisen (K.faults out.old) (K.faults out.new) }
    ensures faults { K.faults out.old ≤ K.faults out.new }
    ensures steady { OnOk result (K.faults out.new ≡ K.faults out.old) }
{
    let runner = Runner::make(alloc, image, &world.feeds)?;
    Ok(runner.run(&world.power, brief, out)?)
}
