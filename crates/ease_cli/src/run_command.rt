//! `run IMAGE WORLD [--brief]`: the report of the image's journal on the world.
ghost use Rattle.std.specs.Prelude.{◌≡◌, ◌⊎◌, ℕ, List, ◌≤◌, IsErrOf};
ghost use Rattle.command_line.specs.Form as form;
ghost use Rattle.devices.specs.World.{IsWithinLimits};
ghost use Rattle.ease_base.specs.Count.{HasRisen, raised};
ghost use Rattle.ease_cli.specs.Answer.{Answers, Says};
ghost use Rattle.ease_cli.specs.Files.{files_of};
ghost use Rattle.ease_cli.specs.Output.{IsRunOutput, run_status};
ghost use Rattle.ease_cli.specs.declared.refusal.Refusal.TheVariants.{WriteFault};

use crate::fetched::{fetch_image, fetch_world};
use crate::refusal::Refusal;
use crate::status::Status;
use devices::{RunEnd, World};
use ease_base::{Cabinet, Sink};
use power_trace::{RunError, run};
use std::alloc::Global;
use word_isa::Image;
use world_file::peripherals_of_an_image_are_apart;

/// Writes the report of the run of an image on a world, line by line.
pub fn run_command<C: Cabinet, K: Sink>(
    alloc: Global,
    image: &str,
    world: &str,
    brief: bool,
    files: &mut C,
    out: &mut K,
) -> Result<Status, Refusal>
    ensures says { Answers (Says (form.run image.now world.now brief)
        (files_of (C.told files.old) (C.contents files.old) (C.faults files.old) (C.faults files.new) (C.long_contents files.old) (C.long_contents files.new)))
        result (K.taken out.old) (K.taken out.new) }
    ensures told { C.told files.new ≡ C.told files.old }
    ensures contents { (name : List ℕ) → C.contents files.new name ≡ C.contents files.old name }
    ensures faults { C.faults files.old ≤ C.faults files.new }
    ensures long_contents { (C.long_contents files.new ≡ C.long_contents files.old) ⊎ (C.long_contents files.new ≡ raised (C.long_contents files.old)) }
    ensures out_fault { IsErrOf result WriteFault → HasRisen (K.faults out.old) (K.faults out.new) }
    ensures out_steady { (IsErrOf result WriteFault → ⊥) → K.faults out.new ≡ K.faults out.old }
    ensures out_faults { K.faults out.old ≤ K.faults out.new }
{
    peripherals_of_an_image_are_apart();
    let image = fetch_image(alloc, files, image)?;
    let world = fetch_world(alloc, files, world, &image.peripherals)?;
    write_run(alloc, &image, &world, brief, out)
}

// Writes the report of the run.
fn write_run<K: Sink>(
    alloc: Global,
    image: &Image,
    world: &World,
    brief: bool,
    out: &mut K,
) -> Result<Status, Refusal>
    requires { IsWithinLimits world.now }
    ensures says { Answers (IsRunOutput image.now world.now brief) result (K.taken out.old) (K.taken out.new) }
    ensures out_fault { IsErrOf result WriteFault → HasRisen (K.faults out.old) (K.faults out.new) }
    ensures out_steady { (IsErrOf result WriteFault → ⊥) → K.faults out.new ≡ K.faults out.old }
    ensures out_faults { K.faults out.old ≤ K.faults out.new }
{
    match run(alloc, image, world, brief, out) {
        Ok(end) => Ok(run_status(end)),
        Err(RunError::WriteFault) => Err(Refusal::WriteFault),
        Err(RunError::NoMemory) => Err(Refusal::NoMemory),
    }
}

/// The status of a run, by its end.
pub fn run_status(end: RunEnd) -> Status
    ensures { result ≡ run_status end }
{
    match end {
        RunEnd::Halted => Status::Ok,
        RunEnd::Trapped(_) => Status::Trapped,
        RunEnd::Power => Status::PowerEnded,
    }
}
