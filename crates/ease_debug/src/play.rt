//! A session: the first boot's line, the commands one after another, and how it ended.
ghost use Rattle.std.specs.Prelude.{◌≡◌, ◌+◌, ◌<◌, ◌≤◌, IsTrue, IfOk, OnOk, All, length};
ghost use Rattle.ease_debug.specs.Commands.{accepts};
ghost use Rattle.ease_debug.specs.Session as spec;
ghost use Rattle.ease_debug.specs.Session.{Session};
ghost use Rattle.ease_debug.specs.Standing.{Stands, Stays, Goes};
ghost use Rattle.ease_debug.specs.declared.command.Command.{Command};
ghost use Rattle.power_trace.specs.Live.{program_in_live};
ghost use Rattle.power_trace.specs.Writing.{Writes};

use crate::command::Command;
use crate::debugger::Debugger;
use crate::end::DebugEnd;
use crate::shown::{send, send_end};
use crate::stop::Stop;
use ease_base::{Failed, Sink};
use power_trace::boot_line;

/// One step more than a session has.
const ANY_STEPS: u32 = 4_194_305;

/// Plays a session from its first boot to its end, and writes its text.
pub fn play<K: Sink>(
    debugger: &mut Debugger,
    commands: &[Command],
    out: &mut K,
) -> Result<DebugEnd, Failed>
    requires accepted { All (λ (c : Command). IsTrue (accepts debugger.old.image c)) commands.now }
    requires first { Stands debugger.old (spec.first debugger.old.image) }
    requires boot { debugger.old.boot ≡ 1 }
    ensures text { Writes result (K.taken out.old) (K.taken out.new) (K.faults out.old) (K.faults out.new)
        (spec.text_of (spec.does_all debugger.old.image (program_in_live debugger.old.live) commands.now (spec.first debugger.old.image))) }
    ensures end { IfOk result (λ end. end ≡ spec.end_of (spec.does_all debugger.old.image (program_in_live debugger.old.live) commands.now (spec.first debugger.old.image)).session) }
{
    send(boot_line(true, 0, 1).as_slice(), out)?;
    do_all(debugger, commands, out)?;
    let end = debugger.end();
    send_end(end, out)?;
    Ok(end)
}

// Does all commands.
fn do_all<K: Sink>(debugger: &mut Debugger, commands: &[Command], out: &mut K) -> Result<(), Failed>
    requires accepted { All (λ (c : Command). IsTrue (accepts debugger.old.image c)) commands.now }
    requires boot { debugger.old.boot ≡ 1 }
    ensures goes { (s : Session) → Stands debugger.old s
        → Goes result debugger.new (K.taken out.old) (K.taken out.new) (K.faults out.old) (K.faults out.new) (spec.does_all debugger.old.image (program_in_live debugger.old.live) commands.now s) }
{
    'commands: for command in commands {
        do_one(debugger, *command, out)?;
    }
    Ok(())
}

// Does a command.
fn do_one<K: Sink>(debugger: &mut Debugger, command: Command, out: &mut K) -> Result<(), Failed>
    requires accepted { IsTrue (accepts debugger.old.image command) }
    requires boot { debugger.old.boot < 18446744073709551615 }
    ensures goes { (s : Session) → Stands debugger.old s
        → Goes result debugger.new (K.taken out.old) (K.taken out.new) (K.faults out.old) (K.faults out.new) (spec.does debugger.old.image (program_in_live debugger.old.live) command s) }
    ensures stays { OnOk result (Stays debugger.old debugger.new) }
    ensures boots { OnOk result (debugger.new.boot ≤ debugger.old.boot + 1) }
{
    match command {
        Command::Step(count) => debugger.go(Stop::Never, count, out),
        Command::Fail(off, fill) => debugger.fail(off, fill, out),
        Command::To(site) => debugger.go(Stop::Site(site), ANY_STEPS, out),
        Command::At(task, site) => debugger.go(Stop::SiteOf(task, site), ANY_STEPS, out),
        Command::Show(place) => debugger.show(place, out),
        Command::Regs => debugger.registers(out),
        Command::Why(site) => debugger.why(site, out),
    }
}
