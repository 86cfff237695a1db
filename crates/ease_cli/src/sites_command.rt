//! `sites PROGRAM`: the account of the program's sites.
ghost use Rattle.std.specs.Prelude.{◌≡◌, ◌⊎◌, ℕ, List, ◌≤◌, IsErrOf};
ghost use Rattle.command_line.specs.Form as form;
ghost use Rattle.ease_base.specs.Count.{HasRisen, raised};
ghost use Rattle.ease_cli.specs.Answer.{Answers, Says};
ghost use Rattle.ease_cli.specs.Files.{files_of};
ghost use Rattle.ease_cli.specs.Output.{IsAccount};
ghost use Rattle.ease_cli.specs.declared.refusal.Refusal.TheVariants.{WriteFault};
ghost use Rattle.task_ast.specs.WellFormed.{IsWellFormed};

use crate::fetched::fetch_source;
use crate::readers::Source;
use crate::refusal::Refusal;
use crate::status::Status;
use ease_base::{Cabinet, Sink, send_all};
use site_account::account_text;
use std::alloc::Global;

/// Writes the account of the sites of a program.
pub fn sites_command<C: Cabinet, K: Sink>(
    alloc: Global,
    program: &str,
    files: &mut C,
    out: &mut K,
) -> Result<Status, Refusal>
    ensures says { Answers (Says (form.sites program.now)
        (files_of (C.told files.old) (C.contents files.old) (C.faults files.old) (C.faults files.new) (C.long_contents files.old) (C.long_contents files.new)))
        result (K.taken out.old) (K.taken out.new) }
    ensures told { C.told files.new ≡ C.told files.old }
    ensures contents { (name : List ℕ) → C.contents files.new name ≡ C.contents files.old name }
    ensures faults { C.faults files.old ≤ C.faults files.new }
    ensures long_contents { (C.long_contents files.new ≡ C.long_contents files.old) ⊎ (C.long_contents files.new ≡ raised (C.long_contents files.old)) }
    ensures out_fault { IsErrOf result WriteFault → HasRisen (K.faults out.old) (K.faults out.new) }
    ensures out_steady { (IsErrOf result WriteFault → ⊥) → K.faults out.new ≡ K.faults out.old }
    ensures out_faults { K.faults out.old ≤ K.faults out.new }
{
    let source = fetch_source(alloc, files, program)?;
    write_account(alloc, &source, out)
}

// Writes the account of a program.
fn write_account<K: Sink>(alloc: Global, source: &Source, out: &mut K) -> Result<Status, Refusal>
    requires { IsWellFormed source.now.core }
    ensures says { Answers (IsAccount source.now.core source.now.program) result (K.taken out.old) (K.taken out.new) }
    ensures out_fault { IsErrOf result WriteFault → HasRisen (K.faults out.old) (K.faults out.new) }
    ensures out_steady { (IsErrOf result WriteFault → ⊥) → K.faults out.new ≡ K.faults out.old }
    ensures out_faults { K.faults out.old ≤ K.faults out.new }
{
    let text = account_text(alloc, &source.core, &source.program)?;
    send_all(out, text.as_slice())?;
    Ok(Status::Ok)
}
