//! Code that grows at its end.
ghost use Rattle.std.specs.Prelude.{◌≡◌, [], ◌∷◌, ◌++◌, ◌+◌, ◌<◌, ◌^◌, length, OnOk};
ghost use Rattle.line_code.specs.Lines.{bares, marked};

use crate::line::{Line, Sign};
use ease_base::NoMemory;
use std::alloc::Global;
use std::marker::Model;
use word_isa::Instr;

/// The lines of code so far; the first one has the address 0.
#[derive(Drop)]
pub struct Code {
    lines: Vec<Line>,
}

impl Model for Code {
    ghost use Rattle.std.specs.Prelude.{List};
    ghost use Rattle.line_code.specs.declared.line.Line.{Line as OneLine};

    ghost Value = { List OneLine };

    ghost view = { λ c. c.lines.items };
}

impl Code {
    /// No lines.
    pub fn new(alloc: Global) -> Code
        ensures { result ≡ [] }
    {
        Code {
            lines: Vec::new(alloc),
        }
    }

    /// The address behind the last line.
    pub fn at(&self) -> u32
        requires { length self.now < 2 ^ 32 }
        ensures { result ≡ length self.now }
    {
        self.lines.len() as u32
    }

    /// The lines.
    pub fn as_slice(&self) -> &[Line]
        ensures { result.now ≡ self.now }
    {
        self.lines.as_slice()
    }

    /// Puts an instruction without a mark behind.
    pub fn put(&mut self, instr: Instr) -> Result<(), NoMemory>
        ensures lines { OnOk result (self.new ≡ self.old ++ bares (instr ∷ [])) }
        ensures count { OnOk result (length self.new ≡ length self.old + 1) }
    {
        self.lines.push(Line { instr, sign: None })?;
        Ok(())
    }

    /// Puts a marked instruction behind.
    pub fn put_marked(&mut self, sign: Sign, instr: Instr) -> Result<(), NoMemory>
        ensures lines { OnOk result (self.new ≡ self.old ++ marked sign instr ∷ []) }
        ensures count { OnOk result (length self.new ≡ length self.old + 1) }
    {
        self.lines.push(Line {
            instr,
            sign: Some(sign),
        })?;
        Ok(())
    }

    /// Puts instructions without marks behind.
    pub fn put_all(&mut self, instrs: &[Instr]) -> Result<(), NoMemory>
        ensures lines { OnOk result (self.new ≡ self.old ++ bares instrs.now) }
        ensures count { OnOk result (length self.new ≡ length self.old + length instrs.now) }
    {
        'instructions: for instr in instrs {
            self.put(*instr)?;
        }
        Ok(())
    }
}
