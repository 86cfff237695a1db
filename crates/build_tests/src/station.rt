//! `build` on a program of four tasks writes the image that plan, code and spelling give.
ghost use Rattle.std.specs.Prelude.{◌<◌, length};

use ease_base::{List, MemCabinet, MemSink, NoMemory, Words};
use ease_cli::{Status, ease};
use image_file::write_image;
use run_plan::plan;
use std::alloc::{AllocError, Global};
use std::test::Fail;
use task_check::check;
use task_text::read_program;
use word_code::lower;
use word_isa::Scheme;

const STATION: &str =
    "peripheral temp 0; peripheral radio 1; const nv word gain[2] = {3, 1}; nv word samples[8]; nv word mean; nv word sent; word v; word i; word b[8]; task sense { for (i = 0; i < 8; i++) { b[i] = IO(temp, TIMELY(1000)); } DMA(samples, b, 8); NEXT(filter); } task filter { DMA(b, samples, 8); v = 0; for (i = 0; i < 8; i++) { v = v + b[i]; } mean = v / 8; NEXT(scale); } task scale { DMA(b, gain, 2); mean = mean * b[0] / b[1]; NEXT(send); } task send { v = IO(radio, SINGLE, mean); sent = sent + 1; if (sent < 3) NEXT(sense); else STOP; }";

// The words as `ease` takes them.
fn words(alloc: Global, words: &[&str]) -> Result<Vec<String>, AllocError> {
    let mut all = Vec::new(alloc);
    for word in words {
        all.push(String::from_str(alloc, word)?)?;
    }
    Ok(all)
}

// What `ease build` writes of a source under a scheme; None where its status isn't Ok.
fn built(alloc: Global, source: &str, scheme: &str) -> Result<Option<MemSink>, NoMemory> {
    let mut files = MemCabinet::make(alloc, Words::new(alloc));
    files.put("p", source.as_bytes())?;
    let mut out = MemSink::make(alloc, 100_000, Words::new(alloc))?;
    let words = words(alloc, &["build", "p", "--scheme", scheme])?;
    let status = ease(alloc, words.as_slice(), &mut files, &mut out);
    Ok(if status == Status::Ok {
        Some(out)
    } else {
        None
    })
}

// The bytes of the image of the source's plan; None where the source is refused.
fn spelled(alloc: Global, source: &[u8], scheme: Scheme) -> Result<Option<List<u8>>, NoMemory>
    requires { length source.now < 1000 }
{
    let Ok(program) = read_program(alloc, source) else {
        return Ok(None);
    };
    let Ok(core) = check(alloc, &program) else {
        return Ok(None);
    };
    let plan = plan(alloc, &core, scheme)?;
    let image = lower(alloc, &plan, &core)?;
    Ok(Some(write_image(alloc, &image)?))
}

#[test]
fn build_writes_the_image_of_the_plan_of_its_program(rt: HostRuntime) -> Result<(), Fail> {
    for (name, scheme) in [("undo", Scheme::Undo), ("bank", Scheme::Bank)] {
        let built = built(rt.alloc(), STATION, name)?;
        let spelled = spelled(rt.alloc(), STATION.as_bytes(), scheme)?;
        let (Some(built), Some(spelled)) = (built, spelled) else {
            assert!(rt; false, "for {name}");
            return Ok(());
        };
        assert_eq!(rt; built.taken(), spelled.as_slice(), "for {name}");
    }
    Ok(())
}
