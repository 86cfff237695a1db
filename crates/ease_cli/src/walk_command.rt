//! `walk PROGRAM N [WORLD]`: the states of the unbroken run.
ghost use Rattle.std.specs.Prelude.{◌≡◌, ◌⊎◌, ℕ, List, ◌≤◌, IsErrOf, option_map};
ghost use Rattle.command_line.specs.Form as form;
ghost use Rattle.ease_base.specs.Count.{HasRisen, raised};
ghost use Rattle.ease_cli.specs.Answer.{Answers, Says};
ghost use Rattle.ease_cli.specs.Files.{files_of};
ghost use Rattle.ease_cli.specs.Output.{IsWalkOutput, walk_status};
ghost use Rattle.ease_cli.specs.declared.refusal.Refusal.TheVariants.{WriteFault};
ghost use Rattle.task_ast.specs.WellFormed.{IsWellFormed};

use crate::fetched::{fetch_program, fetch_world};
use crate::refusal::Refusal;
use crate::status::Status;
use ease_base::{Cabinet, Sink, send_all};
use std::alloc::Global;
use task_ast::Core;
use walk_run::{WalkEnd, walk, walk_text};
use world_file::peripherals_of_a_program_are_apart;

/// Writes the states of the unbroken run of at most `tasks` tasks, fed the readings that the world retains.
pub fn walk_command<C: Cabinet, K: Sink>(
    alloc: Global,
    program: &str,
    tasks: u32,
    world: Option<&str>,
    files: &mut C,
    out: &mut K,
) -> Result<Status, Refusal>
    requires few { tasks ≤ 1000 }
    ensures says { Answers (Says (form.walk program.now tasks (option_map (λ s. s.now) world.entry))
        (files_of (C.told files.old) (C.contents files.old) (C.faults files.old) (C.faults files.new) (C.long_contents files.old) (C.long_contents files.new)))
        result (K.taken out.old) (K.taken out.new) }
    ensures told { C.told files.new ≡ C.told files.old }
    ensures contents { (name : List ℕ) → C.contents files.new name ≡ C.contents files.old name }
    ensures faults { C.faults files.old ≤ C.faults files.new }
    ensures long_contents { (C.long_contents files.new ≡ C.long_contents files.old) ⊎ (C.long_contents files.new ≡ raised (C.long_contents files.old)) }
    ensures out_fault { IsErrOf result WriteFault → HasRisen (K.faults out.old) (K.faults out.new) }
    ensures out_steady { (IsErrOf result WriteFault → ⊥) → K.faults out.new ≡ K.faults out.old }
    ensures out_faults { K.faults out.old ≤ K.faults out.new }
{
    peripherals_of_a_program_are_apart();
    let core = fetch_program(alloc, files, program)?;
    match world {
        None => write_walk(alloc, &core, &[], tasks, out),
        Some(name) => {
            let world = fetch_world(alloc, files, name, &core.peripherals)?;
            write_walk(alloc, &core, world.retained.as_slice(), tasks, out)
        }
    }
}

// Writes the states of the unbroken run with these readings.
fn write_walk<K: Sink>(
    alloc: Global,
    core: &Core,
    readings: &[u32],
    tasks: u32,
    out: &mut K,
) -> Result<Status, Refusal>
    requires few { tasks ≤ 1000 }
    requires well_formed { IsWellFormed core.now }
    ensures says { Answers (IsWalkOutput core.now readings.now tasks) result (K.taken out.old) (K.taken out.new) }
    ensures out_fault { IsErrOf result WriteFault → HasRisen (K.faults out.old) (K.faults out.new) }
    ensures out_steady { (IsErrOf result WriteFault → ⊥) → K.faults out.new ≡ K.faults out.old }
    ensures out_faults { K.faults out.old ≤ K.faults out.new }
{
    let walked = walk(alloc, core, readings, tasks)?;
    let text = walk_text(alloc, core, &walked)?;
    send_all(out, text.as_slice())?;
    Ok(walk_status(walked.end))
}

// The status of an unbroken run, by its end.
fn walk_status(end: WalkEnd) -> Status
    ensures { result ≡ walk_status end }
{
    match end {
        WalkEnd::Trapped(_) => Status::Trapped,
        WalkEnd::Stopped | WalkEnd::Limit | WalkEnd::NoReading => Status::Ok,
    }
}
