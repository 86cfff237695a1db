//! The files of a command: each is fetched and then read.
ghost use Rattle.std.specs.Prelude.{◌≡◌, ◌⊎◌, ℕ, List, [], ◌∷◌, ◌<◌, ◌≤◌, IsTrue, IfOk, IfErr, OnOk, All};
ghost use Rattle.audit_gather.specs.Told.{answer_of};
ghost use Rattle.audit_laws.specs.Answers.{IsAnswerOn};
ghost use Rattle.devices.specs.World.{IsWithinLimits};
ghost use Rattle.ease_base.specs.Count.{raised};
ghost use Rattle.ease_cli.specs.Answer.{IsRead, Stops, Tells};
ghost use Rattle.ease_cli.specs.Files.{files_of, named, source_file, image_file, world_file, script_file, report_file, IsQuiet, IsBrought, IsUnbrought};
ghost use Rattle.ease_cli.specs.Inputs as inputs;
ghost use Rattle.ease_debug.specs.Commands.{accepts};
ghost use Rattle.ease_debug.specs.declared.command.Command.{Command};
ghost use Rattle.report_text.specs.declared.line.ReportLine.{ReportLine};
ghost use Rattle.task_ast.specs.WellFormed.{IsWellFormed};
ghost use Rattle.task_ast.specs.declared.tree.Program.{Program};
ghost use Rattle.task_check.specs.CheckedForm.{core_of};
ghost use Rattle.world_file.specs.Peripherals.{AreApart};

use crate::lines::{READ_FAULT, TOO_LONG};
use crate::readers::{Source, image_in, program_in, script_in, verdict_in, world_in};
use crate::refusal::{Refusal, refuse};
use crate::status::Status;
use audit_verdict::Verdict;
use devices::World;
use ease_base::{Cabinet, FetchError, List, Peripheral, Text};
use ease_debug::Script;
use std::alloc::Global;
use task_ast::Core;
use word_isa::Image;

/// The most bytes of a source.
const SOURCE_LIMIT: usize = 65_536;

/// The most bytes of an image.
const IMAGE_LIMIT: usize = 40_000_000;

/// The most bytes of a world.
const WORLD_LIMIT: usize = 1_048_576;

/// The most bytes of a script.
const SCRIPT_LIMIT: usize = 65_536;

/// The most bytes of a report.
const REPORT_LIMIT: usize = 67_108_864;

/// The program in a file, with its checked form.
pub fn fetch_source<C: Cabinet>(alloc: Global, files: &mut C, name: &str) -> Result<Source, Refusal>
    ensures read { IfOk result (λ source. IsRead (files_of (C.told files.old) (C.contents files.old) (C.faults files.old) (C.faults files.new) (C.long_contents files.old) (C.long_contents files.new))
        (named source_file name.now) [] (inputs.tree source.program) × (source.core ≡ core_of source.program)) }
    ensures stops { IfErr result (Tells (Stops (files_of (C.told files.old) (C.contents files.old) (C.faults files.old) (C.faults files.new) (C.long_contents files.old) (C.long_contents files.new))
        (named source_file name.now) [])) }
    ensures quiet { OnOk result (IsQuiet (files_of (C.told files.old) (C.contents files.old) (C.faults files.old) (C.faults files.new) (C.long_contents files.old) (C.long_contents files.new))) }
    ensures well_formed { IfOk result (λ source. IsWellFormed source.core) }
    ensures told { C.told files.new ≡ C.told files.old }
    ensures contents { (name : List ℕ) → C.contents files.new name ≡ C.contents files.old name }
    ensures faults { C.faults files.old ≤ C.faults files.new }
    ensures long_contents { (C.long_contents files.new ≡ C.long_contents files.old) ⊎ (C.long_contents files.new ≡ raised (C.long_contents files.old)) }
{
    let bytes = fetch_bytes(alloc, files, name, SOURCE_LIMIT)?;
    program_in(alloc, bytes.as_slice())
}

/// The checked form of the program in a file.
pub fn fetch_program<C: Cabinet>(alloc: Global, files: &mut C, name: &str) -> Result<Core, Refusal>
    ensures read { IfOk result (λ core. (p : Program) × IsRead (files_of (C.told files.old) (C.contents files.old) (C.faults files.old) (C.faults files.new) (C.long_contents files.old) (C.long_contents files.new))
        (named source_file name.now) [] (inputs.tree p) × (core ≡ core_of p)) }
    ensures stops { IfErr result (Tells (Stops (files_of (C.told files.old) (C.contents files.old) (C.faults files.old) (C.faults files.new) (C.long_contents files.old) (C.long_contents files.new))
        (named source_file name.now) [])) }
    ensures quiet { OnOk result (IsQuiet (files_of (C.told files.old) (C.contents files.old) (C.faults files.old) (C.faults files.new) (C.long_contents files.old) (C.long_contents files.new))) }
    ensures well_formed { IfOk result IsWellFormed }
    ensures told { C.told files.new ≡ C.told files.old }
    ensures contents { (name : List ℕ) → C.contents files.new name ≡ C.contents files.old name }
    ensures faults { C.faults files.old ≤ C.faults files.new }
    ensures long_contents { (C.long_contents files.new ≡ C.long_contents files.old) ⊎ (C.long_contents files.new ≡ raised (C.long_contents files.old)) }
{
    match fetch_source(alloc, files, name) {
        Ok(source) => Ok(source.core),
        Err(refusal) => Err(refusal),
    }
}

/// The image in a file.
pub fn fetch_image<C: Cabinet>(alloc: Global, files: &mut C, name: &str) -> Result<Image, Refusal>
    ensures read { IfOk result (λ image. IsRead (files_of (C.told files.old) (C.contents files.old) (C.faults files.old) (C.faults files.new) (C.long_contents files.old) (C.long_contents files.new))
        (named image_file name.now) [] (inputs.image image)) }
    ensures stops { IfErr result (Tells (Stops (files_of (C.told files.old) (C.contents files.old) (C.faults files.old) (C.faults files.new) (C.long_contents files.old) (C.long_contents files.new))
        (named image_file name.now) [])) }
    ensures quiet { OnOk result (IsQuiet (files_of (C.told files.old) (C.contents files.old) (C.faults files.old) (C.faults files.new) (C.long_contents files.old) (C.long_contents files.new))) }
    ensures told { C.told files.new ≡ C.told files.old }
    ensures contents { (name : List ℕ) → C.contents files.new name ≡ C.contents files.old name }
    ensures faults { C.faults files.old ≤ C.faults files.new }
    ensures long_contents { (C.long_contents files.new ≡ C.long_contents files.old) ⊎ (C.long_contents files.new ≡ raised (C.long_contents files.old)) }
{
    let bytes = fetch_bytes(alloc, files, name, IMAGE_LIMIT)?;
    image_in(alloc, bytes.as_slice())
}

/// The world in a file, which may name these peripherals: those of the file before it.
pub fn fetch_world<C: Cabinet>(
    alloc: Global,
    files: &mut C,
    name: &str,
    names: &List<Peripheral>,
) -> Result<World, Refusal>
    requires apart { AreApart names.now }
    ensures read { (before : List inputs.Input) → inputs.names_of before ≡ names.now
        → IfOk result (λ world. IsRead (files_of (C.told files.old) (C.contents files.old) (C.faults files.old) (C.faults files.new) (C.long_contents files.old) (C.long_contents files.new))
        (named world_file name.now) before (inputs.world world)) }
    ensures stops { (before : List inputs.Input) → inputs.names_of before ≡ names.now
        → IfErr result (Tells (Stops (files_of (C.told files.old) (C.contents files.old) (C.faults files.old) (C.faults files.new) (C.long_contents files.old) (C.long_contents files.new))
        (named world_file name.now) before)) }
    ensures quiet { OnOk result (IsQuiet (files_of (C.told files.old) (C.contents files.old) (C.faults files.old) (C.faults files.new) (C.long_contents files.old) (C.long_contents files.new))) }
    ensures within { IfOk result IsWithinLimits }
    ensures told { C.told files.new ≡ C.told files.old }
    ensures contents { (name : List ℕ) → C.contents files.new name ≡ C.contents files.old name }
    ensures faults { C.faults files.old ≤ C.faults files.new }
    ensures long_contents { (C.long_contents files.new ≡ C.long_contents files.old) ⊎ (C.long_contents files.new ≡ raised (C.long_contents files.old)) }
{
    let bytes = fetch_bytes(alloc, files, name, WORLD_LIMIT)?;
    world_in(alloc, bytes.as_slice(), names)
}

/// The script in a file for the image, which is the first of the files before it.
pub fn fetch_script<C: Cabinet>(
    alloc: Global,
    files: &mut C,
    name: &str,
    image: &Image,
) -> Result<Script, Refusal>
    ensures read { (rest : List inputs.Input) → IfOk result (λ script. IsRead (files_of (C.told files.old) (C.contents files.old) (C.faults files.old) (C.faults files.new) (C.long_contents files.old) (C.long_contents files.new))
        (named script_file name.now) (inputs.image image.now ∷ rest) (inputs.script script)) }
    ensures stops { (rest : List inputs.Input) → IfErr result (Tells (Stops (files_of (C.told files.old) (C.contents files.old) (C.faults files.old) (C.faults files.new) (C.long_contents files.old) (C.long_contents files.new))
        (named script_file name.now) (inputs.image image.now ∷ rest))) }
    ensures quiet { OnOk result (IsQuiet (files_of (C.told files.old) (C.contents files.old) (C.faults files.old) (C.faults files.new) (C.long_contents files.old) (C.long_contents files.new))) }
    ensures accepted { IfOk result (λ script. All (λ (c : Command). IsTrue (accepts image.now c)) script.lines) }
    ensures told { C.told files.new ≡ C.told files.old }
    ensures contents { (name : List ℕ) → C.contents files.new name ≡ C.contents files.old name }
    ensures faults { C.faults files.old ≤ C.faults files.new }
    ensures long_contents { (C.long_contents files.new ≡ C.long_contents files.old) ⊎ (C.long_contents files.new ≡ raised (C.long_contents files.old)) }
{
    let bytes = fetch_bytes(alloc, files, name, SCRIPT_LIMIT)?;
    script_in(alloc, bytes.as_slice(), image)
}

/// The verdict on the report in a file, of a program in a world.
pub fn fetch_verdict<C: Cabinet>(
    alloc: Global,
    files: &mut C,
    name: &str,
    core: &Core,
    world: &World,
) -> Result<Verdict, Refusal>
    requires well_formed { IsWellFormed core.now }
    requires within { IsWithinLimits world.now }
    ensures read { (before : List inputs.Input) → IfOk result (λ verdict. (lines : List ReportLine) × IsRead (files_of (C.told files.old) (C.contents files.old) (C.faults files.old) (C.faults files.new) (C.long_contents files.old) (C.long_contents files.new))
        (named report_file name.now) before (inputs.report lines) × IsAnswerOn core.now world.now lines (answer_of verdict)) }
    ensures stops { (before : List inputs.Input) → IfErr result (Tells (Stops (files_of (C.told files.old) (C.contents files.old) (C.faults files.old) (C.faults files.new) (C.long_contents files.old) (C.long_contents files.new))
        (named report_file name.now) before)) }
    ensures quiet { OnOk result (IsQuiet (files_of (C.told files.old) (C.contents files.old) (C.faults files.old) (C.faults files.new) (C.long_contents files.old) (C.long_contents files.new))) }
    ensures told { C.told files.new ≡ C.told files.old }
    ensures contents { (name : List ℕ) → C.contents files.new name ≡ C.contents files.old name }
    ensures faults { C.faults files.old ≤ C.faults files.new }
    ensures long_contents { (C.long_contents files.new ≡ C.long_contents files.old) ⊎ (C.long_contents files.new ≡ raised (C.long_contents files.old)) }
{
    let bytes = fetch_bytes(alloc, files, name, REPORT_LIMIT)?;
    verdict_in(alloc, bytes.as_slice(), core, world)
}

// The bytes of a file, at most so many.
fn fetch_bytes<C: Cabinet>(
    alloc: Global,
    files: &mut C,
    name: &str,
    limit: usize,
) -> Result<Vec<u8>, Refusal>
    requires { limit < 4294967295 }
    ensures brought { IfOk result (λ bytes. IsBrought (files_of (C.told files.old) (C.contents files.old) (C.faults files.old) (C.faults files.new) (C.long_contents files.old) (C.long_contents files.new))
        name.now limit bytes.items) }
    ensures stops { IfErr result (Tells (IsUnbrought (files_of (C.told files.old) (C.contents files.old) (C.faults files.old) (C.faults files.new) (C.long_contents files.old) (C.long_contents files.new))
        name.now limit)) }
    ensures quiet { OnOk result (IsQuiet (files_of (C.told files.old) (C.contents files.old) (C.faults files.old) (C.faults files.new) (C.long_contents files.old) (C.long_contents files.new))) }
    ensures told { C.told files.new ≡ C.told files.old }
    ensures contents { (name : List ℕ) → C.contents files.new name ≡ C.contents files.old name }
    ensures faults { C.faults files.old ≤ C.faults files.new }
    ensures long_contents { (C.long_contents files.new ≡ C.long_contents files.old) ⊎ (C.long_contents files.new ≡ raised (C.long_contents files.old)) }
{
    let mut bytes = Vec::new(alloc);
    match files.fetch(alloc, name, limit, &mut bytes) {
        Ok(()) => Ok(bytes),
        Err(FetchError::Failed) => Err(refuse(
            Status::ReadFault,
            Text::from_slice(alloc, READ_FAULT),
        )),
        Err(FetchError::TooLong) => Err(refuse(Status::TooLong, Text::from_slice(alloc, TOO_LONG))),
        Err(FetchError::NoMemory) => Err(Refusal::NoMemory),
    }
}
