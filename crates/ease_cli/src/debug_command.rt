//! `debug IMAGE WORLD SCRIPT`: the script's session on the image.
ghost use Rattle.std.specs.Prelude.{◌≡◌, ◌⊎◌, ℕ, List, ◌≤◌, IsTrue, IsErrOf, All};
ghost use Rattle.command_line.specs.Form as form;
ghost use Rattle.devices.specs.World.{IsWithinLimits};
ghost use Rattle.ease_base.specs.Count.{HasRisen, raised};
ghost use Rattle.ease_cli.specs.Answer.{Answers, Says};
ghost use Rattle.ease_cli.specs.Files.{files_of};
ghost use Rattle.ease_cli.specs.Output.{IsSession, session_status};
ghost use Rattle.ease_cli.specs.declared.refusal.Refusal.TheVariants.{WriteFault};
ghost use Rattle.ease_debug.specs.Commands.{accepts};
ghost use Rattle.ease_debug.specs.declared.command.Command.{Command};

use crate::fetched::{fetch_image, fetch_script, fetch_world};
use crate::refusal::Refusal;
use crate::status::Status;
use devices::World;
use ease_base::{Cabinet, Sink};
use ease_debug::{DebugEnd, Script, debug};
use power_trace::RunError;
use std::alloc::Global;
use word_isa::Image;
use world_file::peripherals_of_an_image_are_apart;

/// Writes the session of a script on an image, with the readings of a world, line by line.
pub fn debug_command<C: Cabinet, K: Sink>(
    alloc: Global,
    image: &str,
    world: &str,
    script: &str,
    files: &mut C,
    out: &mut K,
) -> Result<Status, Refusal>
    ensures says { Answers (Says (form.debug image.now world.now script.now)
        (files_of (C.told files.old) (C.contents files.old) (C.faults files.old) (C.faults files.new) (C.long_contents files.old) (C.long_contents files.new)))
        result (K.taken out.old) (K.taken out.new) }
    ensures told { C.told files.new ≡ C.told files.old }
    ensures contents { (name : List ℕ) → C.contents files.new name ≡ C.contents files.old name }
    ensures faults { C.faults files.old ≤ C.faults files.new }
    ensures long_contents { (C.long_contents files.new ≡ C.long_contents files.old) ⊎ (C.long_contents files.new ≡ raised (C.long_contents files.old)) }
    ensures out_fault { IsErrOf result WriteFault → HasRisen (K.faults out.old) (K.faults out.new) }
    ensures out_steady { (IsErrOf result WriteFault → ⊥) → K.faults out.new ≡ K.faults out.old }
    ensures out_faults { K.faults out.old ≤ K.faults out.new }
{
    peripherals_of_an_image_are_apart();
    let image = fetch_image(alloc, files, image)?;
    let world = fetch_world(alloc, files, world, &image.peripherals)?;
    let script = fetch_script(alloc, files, script, &image)?;
    write_session(alloc, &image, &world, &script, out)
}

// Writes the text of the session.
fn write_session<K: Sink>(
    alloc: Global,
    image: &Image,
    world: &World,
    script: &Script,
    out: &mut K,
) -> Result<Status, Refusal>
    requires world { IsWithinLimits world.now }
    requires script { All (λ (c : Command). IsTrue (accepts image.now c)) script.now.lines }
    ensures says { Answers (IsSession image.now world.now script.now) result (K.taken out.old) (K.taken out.new) }
    ensures out_fault { IsErrOf result WriteFault → HasRisen (K.faults out.old) (K.faults out.new) }
    ensures out_steady { (IsErrOf result WriteFault → ⊥) → K.faults out.new ≡ K.faults out.old }
    ensures out_faults { K.faults out.old ≤ K.faults out.new }
{
    match debug(alloc, image, world, script, out) {
        Ok(end) => Ok(session_status(end)),
        Err(RunError::WriteFault) => Err(Refusal::WriteFault),
        Err(RunError::NoMemory) => Err(Refusal::NoMemory),
    }
}

// The status of a session, by its last line.
fn session_status(end: DebugEnd) -> Status
    ensures { result ≡ session_status end }
{
    match end {
        DebugEnd::Script | DebugEnd::Halted => Status::Ok,
        DebugEnd::Trapped(_) => Status::Trapped,
        DebugEnd::Power => Status::PowerEnded,
    }
}
