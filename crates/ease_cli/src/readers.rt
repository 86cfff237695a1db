//! What the bytes of a file are, or the refusal with the line of their first fault.
ghost use Rattle.std.specs.Prelude.{◌≡◌, ℕ, List, [], ◌∷◌, ◌≤◌, length, IsTrue, IfOk, IfErr, All};
ghost use Rattle.audit_gather.specs.Told.{answer_of};
ghost use Rattle.audit_laws.specs.Answers.{IsAnswer};
ghost use Rattle.devices.specs.World.{IsWithinLimits};
ghost use Rattle.ease_cli.specs.Answer.{Tells};
ghost use Rattle.ease_cli.specs.Files.{source_file, image_file, world_file, script_file, report_file};
ghost use Rattle.ease_cli.specs.Inputs as inputs;
ghost use Rattle.ease_debug.specs.Commands.{accepts};
ghost use Rattle.ease_debug.specs.declared.command.Command.{Command};
ghost use Rattle.task_ast.specs.Readable.{IsReadable};
ghost use Rattle.task_ast.specs.WellFormed.{IsWellFormed};
ghost use Rattle.task_check.specs.CheckedForm.{core_of};
ghost use Rattle.task_check.specs.Faults.{Accepted};
ghost use Rattle.world_file.specs.Peripherals.{AreApart};
ghost use Rattle.world_file.specs.WorldFile.{world_of};

use crate::lines::{check_line, image_line, script_line, text_line, world_line};
use crate::refusal::{Refusal, refuse};
use crate::status::Status;
use audit_verdict::{Verdict, audit, refusal_text};
use devices::World;
use ease_base::{List, Peripheral};
use ease_debug::{Script, read_script};
use image_file::read_image;
use std::alloc::Global;
use task_ast::{Core, Program};
use task_check::check;
use task_text::read_program;
use word_isa::Image;
use world_file::read_world;

/// A program as it was read, with its checked form.
#[derive(Drop)]
pub struct Source {
    pub program: Program,
    pub core: Core,
}

/// The program of a source.
pub fn program_in(alloc: Global, bytes: &[u8]) -> Result<Source, Refusal>
    requires short { length bytes.now ≤ 65536 }
    ensures read { IfOk result (λ source. inputs.IsTree bytes.now source.program × (source.core ≡ core_of source.program)) }
    ensures refused { IfErr result (Tells (inputs.IsRefused source_file [] bytes.now)) }
    ensures well_formed { IfOk result (λ source. IsWellFormed source.core) }
{
    match read_program(alloc, bytes) {
        Ok(program) => checked(alloc, program),
        Err(fault) => Err(refuse(Status::SourceRefused, text_line(alloc, fault))),
    }
}

// A tree with its checked form.
fn checked(alloc: Global, program: Program) -> Result<Source, Refusal>
    requires readable { IsReadable program }
    ensures read { IfOk result (λ source. (source.program ≡ program) × Accepted program × (source.core ≡ core_of program)) }
    ensures refused { IfErr result (Tells (inputs.IsUnaccepted program)) }
    ensures well_formed { IfOk result (λ source. IsWellFormed source.core) }
{
    match check(alloc, &program) {
        Ok(core) => Ok(Source { program, core }),
        Err(fault) => Err(refuse(Status::SourceRefused, check_line(alloc, fault))),
    }
}

/// The image that the bytes are.
pub fn image_in(alloc: Global, bytes: &[u8]) -> Result<Image, Refusal>
    ensures read { IfOk result (inputs.IsImage bytes.now) }
    ensures refused { IfErr result (Tells (inputs.IsRefused image_file [] bytes.now)) }
{
    match read_image(alloc, bytes) {
        Ok(image) => Ok(image),
        Err(fault) => Err(refuse(Status::ImageRefused, image_line(alloc, fault))),
    }
}

/// The world that the bytes are, with readings of these peripherals alone.
pub fn world_in(alloc: Global, bytes: &[u8], names: &List<Peripheral>) -> Result<World, Refusal>
    requires apart { AreApart names.now }
    ensures read { IfOk result (λ world. world_of bytes.now names.now ≡ Some world) }
    ensures refused { (before : List inputs.Input) → inputs.names_of before ≡ names.now → IfErr result (Tells (inputs.IsRefused world_file before bytes.now)) }
    ensures within { IfOk result IsWithinLimits }
{
    match read_world(alloc, bytes, names) {
        Ok(world) => Ok(world),
        Err(fault) => Err(refuse(Status::WorldRefused, world_line(alloc, fault))),
    }
}

/// The script that the bytes are, for the image.
pub fn script_in(alloc: Global, bytes: &[u8], image: &Image) -> Result<Script, Refusal>
    ensures read { (rest : List inputs.Input) → IfOk result (inputs.IsScript (inputs.image image.now ∷ rest) bytes.now) }
    ensures refused { (rest : List inputs.Input) → IfErr result (Tells (inputs.IsRefused script_file (inputs.image image.now ∷ rest) bytes.now)) }
    ensures accepted { IfOk result (λ script. All (λ (c : Command). IsTrue (accepts image.now c)) script.lines) }
{
    match read_script(alloc, bytes, image) {
        Ok(script) => Ok(script),
        Err(fault) => Err(refuse(Status::ScriptRefused, script_line(alloc, fault))),
    }
}

/// The verdict on the report that the bytes are, of a program in a world.
pub fn verdict_in(
    alloc: Global,
    bytes: &[u8],
    core: &Core,
    world: &World,
) -> Result<Verdict, Refusal>
    requires well_formed { IsWellFormed core.now }
    requires within { IsWithinLimits world.now }
    ensures read { IfOk result (λ verdict. IsAnswer core.now world.now bytes.now (answer_of verdict)) }
    ensures refused { (before : List inputs.Input) → IfErr result (Tells (inputs.IsRefused report_file before bytes.now)) }
{
    match audit(alloc, core, world, bytes) {
        Ok(verdict) => Ok(verdict),
        Err(fault) => Err(refuse(Status::ReportRefused, refusal_text(alloc, fault))),
    }
}
