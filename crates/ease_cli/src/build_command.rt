//! `build PROGRAM [--scheme undo|bank]`: the image of the program.
ghost use Rattle.std.specs.Prelude.{◌≡◌, ◌⊎◌, ℕ, List, ◌≤◌, IfOk, IsErrOf};
ghost use Rattle.command_line.specs.Form as form;
ghost use Rattle.ease_base.specs.Count.{HasRisen, raised};
ghost use Rattle.ease_cli.specs.Answer.{Answers, Says};
ghost use Rattle.ease_cli.specs.Files.{files_of};
ghost use Rattle.ease_cli.specs.Output.{IsBuilt};
ghost use Rattle.ease_cli.specs.declared.refusal.Refusal.TheVariants.{WriteFault};
ghost use Rattle.run_plan.specs.PlanOf.{plan_of};
ghost use Rattle.task_ast.specs.WellFormed.{IsWellFormed};
ghost use Rattle.word_code.specs.ImageOf.{IsImageOf};

use crate::fetched::fetch_program;
use crate::refusal::Refusal;
use crate::status::Status;
use ease_base::{Cabinet, NoMemory, Sink, send_all};
use image_file::write_image;
use run_plan::plan;
use sound_images::every_image_is_sound;
use std::alloc::Global;
use task_ast::Core;
use word_code::lower;
use word_isa::{Image, Scheme};

/// Writes the bytes of the image of a program.
pub fn build_command<C: Cabinet, K: Sink>(
    alloc: Global,
    program: &str,
    scheme: Scheme,
    files: &mut C,
    out: &mut K,
) -> Result<Status, Refusal>
    ensures says { Answers (Says (form.build program.now scheme)
        (files_of (C.told files.old) (C.contents files.old) (C.faults files.old) (C.faults files.new) (C.long_contents files.old) (C.long_contents files.new)))
        result (K.taken out.old) (K.taken out.new) }
    ensures told { C.told files.new ≡ C.told files.old }
    ensures contents { (name : List ℕ) → C.contents files.new name ≡ C.contents files.old name }
    ensures faults { C.faults files.old ≤ C.faults files.new }
    ensures long_contents { (C.long_contents files.new ≡ C.long_contents files.old) ⊎ (C.long_contents files.new ≡ raised (C.long_contents files.old)) }
    ensures out_fault { IsErrOf result WriteFault → HasRisen (K.faults out.old) (K.faults out.new) }
    ensures out_steady { (IsErrOf result WriteFault → ⊥) → K.faults out.new ≡ K.faults out.old }
    ensures out_faults { K.faults out.old ≤ K.faults out.new }
{
    let core = fetch_program(alloc, files, program)?;
    write_built(alloc, &core, scheme, out)
}

// Writes the bytes of the image of a checked form.
fn write_built<K: Sink>(
    alloc: Global,
    core: &Core,
    scheme: Scheme,
    out: &mut K,
) -> Result<Status, Refusal>
    requires { IsWellFormed core.now }
    ensures says { Answers (IsBuilt core.now scheme) result (K.taken out.old) (K.taken out.new) }
    ensures out_fault { IsErrOf result WriteFault → HasRisen (K.faults out.old) (K.faults out.new) }
    ensures out_steady { (IsErrOf result WriteFault → ⊥) → K.faults out.new ≡ K.faults out.old }
    ensures out_faults { K.faults out.old ≤ K.faults out.new }
{
    every_image_is_sound(core, scheme);
    let image = image_of(alloc, core, scheme)?;
    let bytes = write_image(alloc, &image)?;
    send_all(out, bytes.as_slice())?;
    Ok(Status::Ok)
}

/// The image of a checked form.
pub fn image_of(alloc: Global, core: &Core, scheme: Scheme) -> Result<Image, NoMemory>
    requires { IsWellFormed core.now }
    ensures { IfOk result (IsImageOf (plan_of core.now scheme) core.now) }
{
    let plan = plan(alloc, core, scheme)?;
    lower(alloc, &plan, core)
}
