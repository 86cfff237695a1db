//! Runs a machine so that its host instructions can be counted: `steps N` of loads, stores, sums and jumps, `copy N` words by
//! the engine, or `load N` code words. bench/machine calls it.
#![tactic(auto)]

use devices::{Clock, Outside, Readings};
use ease_base::{List, NoMemory, Words};
use std::alloc::Global;
use std::env;
use std::env::Env;
use std::process::ExitCode;
use word_isa::{Instr, encode, unnamed_image};
use word_machine::{Machine, Stepped};

fn main(rt: HostRuntime) -> ExitCode {
    let Some((kind, count)) = request(&rt) else {
        return ExitCode::from(1);
    };
    match run(rt.alloc(), kind, count) {
        Ok(Some(pc)) => {
            let _ = println!(rt; "{pc}");
            ExitCode::from(0)
        }
        Ok(None) => ExitCode::from(2),
        Err(NoMemory) => ExitCode::from(8),
    }
}

// What is asked for.
#[derive(Clone, Copy)]
enum Kind {
    Steps,
    Copy,
    Load,
}

// The two words of the command.
fn request<R: Env + AllocGlobal>(rt: &R) -> Option<(Kind, u32)> {
    let mut words = env::args(rt).ok()?;
    let _program = words.next();
    let kind = match words.next()?.as_str() {
        "steps" => Kind::Steps,
        "copy" => Kind::Copy,
        "load" => Kind::Load,
        _ => return None,
    };
    let count = words.next()?.parse::<u32>().ok()?;
    Some((kind, count))
}

// The counter after so many steps; None where the code can't be an image's.
fn run(alloc: Global, kind: Kind, count: u32) -> Result<Option<u32>, NoMemory> {
    let (code, steps) = match kind {
        Kind::Steps => (sums(alloc)?, count),
        Kind::Copy => (copies(alloc)?, count),
        Kind::Load => (halts(alloc, count)?, 1),
    };
    let fram = Words::new(alloc);
    let Some(image) = unnamed_image(alloc, code, fram, List::new(alloc)) else {
        return Ok(None);
    };
    let mut machine = Machine::load(alloc, &image)?;
    let mut outside = Outside {
        readings: Readings::make(alloc, &List::new(alloc))?,
        clock: Clock::new(),
    };
    for _ in 0..steps {
        if outside.clock.now() < u32::MAX {
            let _: Stepped = machine.step(&mut outside);
        }
    }
    Ok(Some(machine.pc()))
}

// A loop that adds to a word of FRAM.
fn sums(alloc: Global) -> Result<Words, NoMemory> {
    let mut code = Words::new(alloc);
    code.push(encode(Instr::Ld(1, 0, 5)))?;
    code.push(encode(Instr::Adi(1, 1)))?;
    code.push(encode(Instr::St(1, 0, 5)))?;
    code.push(encode(Instr::Add(2, 1)))?;
    code.push(encode(Instr::Jmp(0)))?;
    Ok(code)
}

// A loop of transfers of 60,000 words.
fn copies(alloc: Global) -> Result<Words, NoMemory> {
    let mut code = Words::new(alloc);
    code.push(encode(Instr::Ldi(1, 1)))?;
    code.push(encode(Instr::Ldi(3, 60_000)))?;
    code.push(encode(Instr::Dma(1, 2, 3)))?;
    code.push(encode(Instr::Jmp(2)))?;
    Ok(code)
}

// So many HALTs.
fn halts(alloc: Global, count: u32) -> Result<Words, NoMemory> {
    let mut code = Words::new(alloc);
    for _ in 0..count {
        code.push(encode(Instr::Halt))?;
    }
    Ok(code)
}
