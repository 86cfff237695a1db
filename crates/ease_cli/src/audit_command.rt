//! `audit PROGRAM WORLD REPORT`: whether the report is a journal that the rules allow the program in the world.
ghost use Rattle.std.specs.Prelude.{◌≡◌, ◌⊎◌, ℕ, List, ◌≤◌, IsErrOf};
ghost use Rattle.audit_gather.specs.Told.{answer_of};
ghost use Rattle.audit_laws.specs.Answers.{IsAnswerOn};
ghost use Rattle.command_line.specs.Form as form;
ghost use Rattle.devices.specs.declared.world.World.{World};
ghost use Rattle.ease_base.specs.Count.{HasRisen, raised};
ghost use Rattle.ease_cli.specs.Answer.{Answers, Says};
ghost use Rattle.ease_cli.specs.Files.{files_of};
ghost use Rattle.ease_cli.specs.Output.{IsAudit, verdict_status};
ghost use Rattle.ease_cli.specs.declared.refusal.Refusal.TheVariants.{WriteFault};
ghost use Rattle.report_text.specs.declared.line.ReportLine.{ReportLine};
ghost use Rattle.task_ast.specs.declared.core_form.Core.{Core};

use crate::fetched::{fetch_program, fetch_verdict, fetch_world};
use crate::refusal::Refusal;
use crate::status::Status;
use audit_verdict::{Verdict, verdict_text};
use ease_base::{Cabinet, Sink, send_all};
use std::alloc::Global;
use world_file::peripherals_of_a_program_are_apart;

/// Writes the answer on a report, of a program in a world.
pub fn audit_command<C: Cabinet, K: Sink>(
    alloc: Global,
    program: &str,
    world: &str,
    report: &str,
    files: &mut C,
    out: &mut K,
) -> Result<Status, Refusal>
    ensures says { Answers (Says (form.audit program.now world.now report.now)
        (files_of (C.told files.old) (C.contents files.old) (C.faults files.old) (C.faults files.new) (C.long_contents files.old) (C.long_contents files.new)))
        result (K.taken out.old) (K.taken out.new) }
    ensures told { C.told files.new ≡ C.told files.old }
    ensures contents { (name : List ℕ) → C.contents files.new name ≡ C.contents files.old name }
    ensures faults { C.faults files.old ≤ C.faults files.new }
    ensures long_contents { (C.long_contents files.new ≡ C.long_contents files.old) ⊎ (C.long_contents files.new ≡ raised (C.long_contents files.old)) }
    ensures out_fault { IsErrOf result WriteFault → HasRisen (K.faults out.old) (K.faults out.new) }
    ensures out_steady { (IsErrOf result WriteFault → ⊥) → K.faults out.new ≡ K.faults out.old }
    ensures out_faults { K.faults out.old ≤ K.faults out.new }
{
    peripherals_of_a_program_are_apart();
    let core = fetch_program(alloc, files, program)?;
    let world = fetch_world(alloc, files, world, &core.peripherals)?;
    let verdict = fetch_verdict(alloc, files, report, &core, &world)?;
    write_verdict(alloc, verdict, out)
}

// Writes the line of a verdict.
fn write_verdict<K: Sink>(alloc: Global, verdict: Verdict, out: &mut K) -> Result<Status, Refusal>
    ensures says { (c : Core) (w : World) (lines : List ReportLine) → IsAnswerOn c w lines (answer_of verdict)
        → Answers (IsAudit c w lines) result (K.taken out.old) (K.taken out.new) }
    ensures out_fault { IsErrOf result WriteFault → HasRisen (K.faults out.old) (K.faults out.new) }
    ensures out_steady { (IsErrOf result WriteFault → ⊥) → K.faults out.new ≡ K.faults out.old }
    ensures out_faults { K.faults out.old ≤ K.faults out.new }
{
    let text = verdict_text(alloc, verdict)?;
    send_all(out, text.as_slice())?;
    Ok(verdict_status(verdict))
}

// The status of an audit, by its answer.
fn verdict_status(verdict: Verdict) -> Status
    ensures { result ≡ verdict_status (answer_of verdict) }
{
    match verdict {
        Verdict::Legal => Status::Ok,
        Verdict::Illegal(_) => Status::Illegal,
    }
}
