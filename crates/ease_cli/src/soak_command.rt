//! `soak NUMBER`: the summary of a drawn program's run on a drawn world.
ghost use Rattle.std.specs.Prelude.{◌≡◌, ◌≤◌, IsErrOf};
ghost use Rattle.command_line.specs.Form as form;
ghost use Rattle.devices.specs.World.{IsWithinLimits};
ghost use Rattle.ease_base.specs.Count.{HasRisen};
ghost use Rattle.ease_cli.specs.Answer.{Answers, Says};
ghost use Rattle.ease_cli.specs.Files.{Files, IsQuiet};
ghost use Rattle.ease_cli.specs.Output.{IsSoaked};
ghost use Rattle.ease_cli.specs.declared.refusal.Refusal.TheVariants.{WriteFault};
ghost use Rattle.task_ast.specs.WellFormed.{IsWellFormed};

use crate::build_command::image_of;
use crate::readers::program_in;
use crate::refusal::Refusal;
use crate::run_command::run_status;
use crate::status::Status;
use devices::World;
use ease_base::{Sink, send_all};
use soak_case::{soak_source, soak_world};
use soak_run::sum_up;
use sound_images::every_image_is_sound;
use std::alloc::Global;
use task_ast::Core;
use word_isa::Scheme;

/// Writes the summary of the soak of a number. It fetches no file.
pub fn soak_command<K: Sink>(alloc: Global, number: u32, out: &mut K) -> Result<Status, Refusal>
    ensures says { (f : Files) → IsQuiet f → Answers (Says (form.soak number) f) result (K.taken out.old) (K.taken out.new) }
    ensures out_fault { IsErrOf result WriteFault → HasRisen (K.faults out.old) (K.faults out.new) }
    ensures out_steady { (IsErrOf result WriteFault → ⊥) → K.faults out.new ≡ K.faults out.old }
    ensures out_faults { K.faults out.old ≤ K.faults out.new }
{
    let bytes = soak_source(alloc, number)?;
    let source = program_in(alloc, bytes.as_slice())?;
    let world = soak_world(alloc, number)?;
    write_summary(alloc, &source.core, &world, out)
}

// Writes the summary of the run of a checked form's image on a world.
fn write_summary<K: Sink>(
    alloc: Global,
    core: &Core,
    world: &World,
    out: &mut K,
) -> Result<Status, Refusal>
    requires well_formed { IsWellFormed core.now }
    requires within { IsWithinLimits world.now }
    ensures says { Answers (IsSoaked core.now world.now) result (K.taken out.old) (K.taken out.new) }
    ensures out_fault { IsErrOf result WriteFault → HasRisen (K.faults out.old) (K.faults out.new) }
    ensures out_steady { (IsErrOf result WriteFault → ⊥) → K.faults out.new ≡ K.faults out.old }
    ensures out_faults { K.faults out.old ≤ K.faults out.new }
{
    every_image_is_sound(core, Scheme::Undo);
    let image = image_of(alloc, core, Scheme::Undo)?;
    let summary = sum_up(alloc, &image, world)?;
    send_all(out, summary.text.as_slice())?;
    Ok(run_status(summary.end))
}
