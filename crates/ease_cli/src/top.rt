//! The one public call: words, files and output of a command.
ghost use Rattle.std.specs.Prelude.{◌≡◌, ◌⊎◌, ℕ, List, ◌≤◌, ◌<◌, map, string_bytes, IsErrOf, None, Some};
ghost use Rattle.command_line.specs.Form.{Form, form_of};
ghost use Rattle.ease_base.specs.Count.{HasRisen, raised};
ghost use Rattle.ease_cli.specs.Answer.{Answers, LineSays, Writes, TellsFetchFault};
ghost use Rattle.ease_cli.specs.Files.{files_of};
ghost use Rattle.ease_cli.specs.Settled.{CanBeRead, Settles};
ghost use Rattle.ease_cli.specs.declared.refusal.Refusal.TheVariants.{WriteFault};

use crate::audit_command::audit_command;
use crate::build_command::build_command;
use crate::debug_command::debug_command;
use crate::lines::USAGE;
use crate::refusal::{Refusal, refuse};
use crate::run_command::run_command;
use crate::sites_command::sites_command;
use crate::soak_command::soak_command;
use crate::status::Status;
use crate::walk_command::walk_command;
use command_line::{Command, command_of};
use ease_base::{Cabinet, Sink, Text, send_all};
use std::alloc::Global;

/// Carries out the command that the words ask for. It fetches the files of the words from `files`, writes its
/// output or the one line of its refusal to `out`, and gives its status. docs/COMMANDS.md lists the commands,
/// the statuses and the lines.
pub fn ease<C: Cabinet, K: Sink>(
    alloc: Global,
    words: &[String],
    files: &mut C,
    out: &mut K,
) -> Status
    // What is written is what the words and the files say, with the cause of each refusal, and at each status
    // nothing else.
    ensures written { Writes (LineSays (form_of (map string_bytes words.now))
        (files_of (C.told files.old) (C.contents files.old) (C.faults files.old) (C.faults files.new) (C.long_contents files.old) (C.long_contents files.new)))
        result (K.taken out.old) (K.taken out.new) }
    // No command is answered by Usage, where its line can be written.
    ensures usage { form_of (map string_bytes words.now) ≡ None → (result ≡ Status.Usage) ⊎ (result ≡ Status.WriteFault) ⊎ (result ≡ Status.NoMemory) }

    ensures write_fault { result ≡ Status.WriteFault → HasRisen (K.faults out.old) (K.faults out.new) }
    // Nothing is tried again behind a failure: a fault of the cabinet or of the sink is told by the status.
    ensures fetch_once { C.faults files.old < C.faults files.new → TellsFetchFault result }
    ensures write_once { K.faults out.old < K.faults out.new → result ≡ Status.WriteFault }

    // Where the files are there and nothing fails, the status is that of the output exactly where all of them are
    // accepted, else that of the first that isn't.
    ensures settled { (command : Form) → form_of (map string_bytes words.now) ≡ Some command
        → CanBeRead command (files_of (C.told files.old) (C.contents files.old) (C.faults files.old) (C.faults files.new) (C.long_contents files.old) (C.long_contents files.new))
        → (HasRisen (K.faults out.old) (K.faults out.new) → ⊥)
        → Settles command (files_of (C.told files.old) (C.contents files.old) (C.faults files.old) (C.faults files.new) (C.long_contents files.old) (C.long_contents files.new)) result }

    ensures contents { (name : List ℕ) → C.contents files.new name ≡ C.contents files.old name }
    ensures told { C.told files.new ≡ C.told files.old }
    ensures counts { (C.faults files.old ≤ C.faults files.new) × (K.faults out.old ≤ K.faults out.new) }
    ensures long_contents { (C.long_contents files.new ≡ C.long_contents files.old) ⊎ (C.long_contents files.new ≡ raised (C.long_contents files.old)) }
{
    match carry_out(alloc, words, files, out) {
        Ok(status) => status,
        Err(Refusal::Refused(status, line)) => match send_all(out, line.as_slice()) {
            Ok(()) => status,
            Err(_) => Status::WriteFault,
        },
        Err(Refusal::WriteFault) => Status::WriteFault,
        Err(Refusal::NoMemory) => Status::NoMemory,
    }
}

// Carries out the command of the words. The line of a refusal isn't written yet.
fn carry_out<C: Cabinet, K: Sink>(
    alloc: Global,
    words: &[String],
    files: &mut C,
    out: &mut K,
) -> Result<Status, Refusal>
    ensures says { Answers (LineSays (form_of (map string_bytes words.now))
        (files_of (C.told files.old) (C.contents files.old) (C.faults files.old) (C.faults files.new) (C.long_contents files.old) (C.long_contents files.new)))
        result (K.taken out.old) (K.taken out.new) }
    ensures told { C.told files.new ≡ C.told files.old }
    ensures contents { (name : List ℕ) → C.contents files.new name ≡ C.contents files.old name }
    ensures faults { C.faults files.old ≤ C.faults files.new }
    ensures long_contents { (C.long_contents files.new ≡ C.long_contents files.old) ⊎ (C.long_contents files.new ≡ raised (C.long_contents files.old)) }
    ensures out_fault { IsErrOf result WriteFault → HasRisen (K.faults out.old) (K.faults out.new) }
    ensures out_steady { (IsErrOf result WriteFault → ⊥) → K.faults out.new ≡ K.faults out.old }
    ensures out_faults { K.faults out.old ≤ K.faults out.new }
{
    match command_of(alloc, words)? {
        None => Err(refuse(Status::Usage, Text::from_slice(alloc, USAGE))),
        Some(
            Command::Walk {
                program,
                tasks,
                world,
            },
        ) => walk_command(alloc, program, tasks, world, files, out),
        Some(
            Command::Run {
                image,
                world,
                brief,
            },
        ) => run_command(alloc, image, world, brief, files, out),
        Some(Command::Build { program, scheme }) => {
            build_command(alloc, program, scheme, files, out)
        }
        Some(Command::Sites { program }) => sites_command(alloc, program, files, out),
        Some(
            Command::Debug {
                image,
                world,
                script,
            },
        ) => debug_command(alloc, image, world, script, files, out),
        Some(
            Command::Audit {
                program,
                world,
                report,
            },
        ) => audit_command(alloc, program, world, report, files, out),
        Some(Command::Soak { number }) => soak_command(alloc, number, out),
    }
}
