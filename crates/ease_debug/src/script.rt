//! A script, line by line.
ghost use Rattle.std.specs.Prelude.{List, All, IsTrue, IfOk, IfErr};
ghost use Rattle.ease_debug.specs.Commands.{accepts, lines_of, AreCommands, ReadsAs, TellsFirst};
ghost use Rattle.ease_debug.specs.Reading as spec;
ghost use Rattle.ease_debug.specs.Words.{rest_of};
ghost use Rattle.ease_debug.specs.declared.command.Command.{Command};

use crate::command::{Command, Script};
use crate::error::ScriptError;
use crate::line::command_in;
use crate::words::cut;
use ease_base::{List, NoMemory};
use std::alloc::Global;
use word_isa::Image;

// The commands of all lines.
fn read_lines(alloc: Global, bytes: &[u8], image: &Image) -> Result<List<Command>, ScriptError>
    ensures read { spec.Reads (spec.script_of image.now 0 (lines_of bytes.now)) result }
{
    let mut commands = List::new(alloc);
    let mut left = Some(bytes);
    let mut number = 0u32;
    'lines: while let Some(text) = left {
        let (line, behind) = cut(text, b'\n');
        number = number.checked_add(1).ok_or(NoMemory)?;
        read_line(&mut commands, line, number, image)?;
        left = behind;
    }
    Ok(commands)
}

// The command of a line, put behind those before; an empty line has none.
fn read_line(
    commands: &mut List<Command>,
    line: &[u8],
    number: u32,
    image: &Image,
) -> Result<(), ScriptError>
    ensures read { spec.ReadsLine image.now line.now number commands.old commands.new result }
{
    if line.is_empty() {
        return Ok(());
    }
    match command_in(image, line) {
        Some(command) => {
            commands.push(command)?;
            Ok(())
        }
        None => Err(ScriptError::Line(number)),
    }
}

/// Reads a script for an image: its lines end with a line feed, of which the last may lack its own, and each that isn't empty
/// gives a command, as docs/COMMANDS.md says under "The debugger". Else the first line that may not stand is told, from 1.
pub fn read_script(alloc: Global, bytes: &[u8], image: &Image) -> Result<Script, ScriptError>
    // what is read are the commands of the lines
    ensures found { IfOk result (λ script. AreCommands image.now (lines_of bytes.now) script.lines) }
    // each of them may be given for the image
    ensures accepted { IfOk result (λ script. All (λ (c : Command). IsTrue (accepts image.now c)) script.lines) }
    // no script is refused, and none is read otherwise
    ensures only { (commands : List Command) → AreCommands image.now (lines_of bytes.now) commands → ReadsAs commands result }
    // the line that is told is the first that may not stand
    ensures refused { IfErr result (λ e. TellsFirst image.now (lines_of bytes.now) e) }
{
    let lines = read_lines(alloc, bytes, image)?;
    Ok(Script { lines })
}
