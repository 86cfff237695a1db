//! The session of a script on an image and a world.
ghost use Rattle.std.specs.Prelude.{◌≡◌, ◌≤◌, IsTrue, IfOk, OnOk, IsErrOf, All};
ghost use Rattle.devices.specs.World.{IsWithinLimits};
ghost use Rattle.ease_base.specs.Count.{HasRisen};
ghost use Rattle.ease_base.specs.Sink.{extended, TookFront};
ghost use Rattle.ease_debug.specs.Commands.{accepts};
ghost use Rattle.ease_debug.specs.Session.{session_text, session_end};
ghost use Rattle.ease_debug.specs.declared.command.Command.{Command};
ghost use Rattle.power_trace.specs.declared.error.RunError.TheVariants as fails;

use crate::command::Script;
use crate::debugger::Debugger;
use crate::end::DebugEnd;
use crate::play::play;
use devices::World;
use ease_base::Sink;
use power_trace::RunError;
use std::alloc::Global;
use word_isa::Image;

/// Writes the text of a script's session on an image, with the readings of a world, line by line, and gives how it ended, as
/// docs/COMMANDS.md says under "The debugger". The script's commands are such as the image accepts. All memory is taken first:
/// after `NoMemory` nothing was written. After `WriteFault` a front of the text was taken.
pub fn debug<K: Sink>(
    alloc: Global,
    image: &Image,
    world: &World,
    script: &Script,
    out: &mut K,
) -> Result<DebugEnd, RunError>
    requires world { IsWithinLimits world.now }
    requires script { All (λ (c : Command). IsTrue (accepts image.now c)) script.now.lines }
    ensures whole { OnOk result (K.taken out.new ≡ extended (K.taken out.old) (session_text image.now world.now script.now.lines)) }
    ensures end { IfOk result (λ end. end ≡ session_end image.now world.now script.now.lines) }
    ensures front { TookFront (K.taken out.old) (K.taken out.new) (session_text image.now world.now script.now.lines) }
    ensures no_memory { IsErrOf result fails.NoMemory → (K.taken out.new ≡ K.taken out.old) × (K.faults out.new ≡ K.faults out.old) }
    ensures fault { IsErrOf result fails.WriteFault → HasRisen (K.faults out.old) (K.faults out.new) }
    ensures faults { K.faults out.old ≤ K.faults out.new }
    ensures steady { OnOk result (K.faults out.new ≡ K.faults out.old) }
{
    let mut debugger = Debugger::make(alloc, image, &world.feeds)?;
    Ok(play(&mut debugger, script.lines.as_slice(), out)?)
}
