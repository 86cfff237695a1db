//! The boots of a run: row by row, step by step, each line as soon as it is due.
ghost use Rattle.std.specs.Prelude.{◌≡◌, ◌+◌, ◌≤◌, Some, IfOk, OnOk};
ghost use Rattle.devices.specs.World.{steps_of, ticks_of};
ghost use Rattle.power_trace.specs.Live.{state_of, program_in_live};
ghost use Rattle.power_trace.specs.Report.{style_of, place_in, event_lines, boots_lines};
ghost use Rattle.power_trace.specs.Run as spec;
ghost use Rattle.power_trace.specs.Writing.{Writes};
ghost use Rattle.word_machine.specs.Runs.{numbered, steps_done, boots, total_steps, end_of, last_ending};
ghost use Rattle.word_machine.specs.Step.{exec};
ghost use Rattle.word_isa.specs.declared.image.Image.{Image};
ghost use Rattle.word_machine.specs.declared.ending.Ending.TheVariants as ending;
ghost use Rattle.word_machine.specs.declared.stepped.Stepped.TheVariants as told;

use crate::live::Live;
use crate::report_line::{boot_line, event_line, trap_line};
use devices::{Event, PowerRow, RunEnd};
use ease_base::{Failed, Sink, send_all};
use word_isa::Image;
use word_machine::Stepped;

/// Runs a machine on these power rows, and writes the lines of its boots, the first of number 1. It ends with the power, or
/// where the machine halts or traps.
pub fn run_rows<K: Sink>(
    live: &mut Live,
    image: &Image,
    brief: bool,
    rows: &[PowerRow],
    out: &mut K,
) -> Result<RunEnd, Failed>
    requires running { (state_of live.old).ending ≡ ending.Running }
    requires clock { live.old.outside.clock + ticks_of rows.now ≤ 4294967295 }
    requires steps { live.old.steps + steps_of rows.now ≤ 4194304 }
    ensures text { Writes result (K.taken out.old) (K.taken out.new) (K.faults out.old) (K.faults out.new)
        (boots_lines (style_of image.now brief) 1 (boots (place_in image.now) (program_in_live live.old) rows.now live.old.steps (state_of live.old))) }
    ensures end { IfOk result (λ end. end ≡ end_of (last_ending (program_in_live live.old) rows.now (state_of live.old))) }
    ensures steps { OnOk result (live.new.steps ≡ live.old.steps + total_steps (program_in_live live.old) rows.now (state_of live.old)) }
{
    let mut number = 1;
    'boots: for row in rows {
        send_all(out, boot_line(brief, live.steps, number).as_slice())?;
        number += 1;
        if let Some(end) = run_row(live, image, brief, row.on, out)? {
            return Ok(end);
        }
        live.fail(*row);
    }
    Ok(RunEnd::Power)
}

// Runs so many steps, or fewer where the machine ends, and writes the lines of their events. It gives the machine's end.
fn run_row<K: Sink>(
    live: &mut Live,
    image: &Image,
    brief: bool,
    on: u32,
    out: &mut K,
) -> Result<Option<RunEnd>, Failed>
    requires running { (state_of live.old).ending ≡ ending.Running }
    requires clock { live.old.outside.clock + on ≤ 4294967295 }
    requires steps { live.old.steps + on ≤ 4194304 }
    ensures text { Writes result (K.taken out.old) (K.taken out.new) (K.faults out.old) (K.faults out.new)
        (event_lines (style_of image.now brief) (numbered (place_in image.now) (program_in_live live.old) live.old.steps on (state_of live.old))) }
    ensures state { OnOk result (state_of live.new ≡ exec (program_in_live live.old) on (state_of live.old)) }
    ensures end { IfOk result (λ end. end ≡ spec.end_in (exec (program_in_live live.old) on (state_of live.old)).ending) }
    ensures steps { OnOk result (live.new.steps ≡ live.old.steps + steps_done (program_in_live live.old) on (state_of live.old)) }
    ensures program { OnOk result (program_in_live live.new ≡ program_in_live live.old) }
{
    'each_step: for _done in 0..on {
        let told = live.step();
        send_told(image, brief, live.steps, told, out)?;
        if let Some(end) = end_told(told) {
            return Ok(Some(end));
        }
    }
    Ok(None)
}

/// Writes the line of what a step answers, if it has one.
pub fn send_told<K: Sink>(
    image: &Image,
    brief: bool,
    step: u32,
    told: Stepped,
    out: &mut K,
) -> Result<(), Failed>
    ensures { Writes result (K.taken out.old) (K.taken out.new) (K.faults out.old) (K.faults out.new) (spec.told_text image.now brief step told) }
{
    match told {
        Stepped::Ran(None) | Stepped::Halted => Ok(()),
        Stepped::Ran(Some(event)) => send_event(image, brief, step, event, out),
        Stepped::Trapped(code) => send_trap(brief, step, code, out),
    }
}

// Writes the line of an event. A line takes 256 bytes of its function's frame, which a step without a line needn't have.
fn send_event<K: Sink>(
    image: &Image,
    brief: bool,
    step: u32,
    event: Event,
    out: &mut K,
) -> Result<(), Failed>
    ensures { Writes result (K.taken out.old) (K.taken out.new) (K.faults out.old) (K.faults out.new) (spec.told_text image.now brief step (told.Ran (Some event))) }
{
    send_all(out, event_line(image, brief, step, event).as_slice())
}

// Writes the line of a trap.
fn send_trap<K: Sink>(brief: bool, step: u32, code: u32, out: &mut K) -> Result<(), Failed>
    ensures { (image : Image) → Writes result (K.taken out.old) (K.taken out.new) (K.faults out.old) (K.faults out.new) (spec.told_text image brief step (told.Trapped code)) }
{
    send_all(out, trap_line(brief, step, code).as_slice())
}

// The end that a step's answer tells.
fn end_told(told: Stepped) -> Option<RunEnd>
    ensures { result ≡ spec.end_told told }
{
    match told {
        Stepped::Ran(_) => None,
        Stepped::Halted => Some(RunEnd::Halted),
        Stepped::Trapped(code) => Some(RunEnd::Trapped(code)),
    }
}
