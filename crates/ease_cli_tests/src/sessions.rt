//! Images, worlds and scripts through `debug`: sessions, and refusals in the order of the files.
use crate::builds::SEND;
use crate::commands::{Ran, calls, run, run_three};
use crate::runs::{ASKS, HALT, JUMPS_TO_ITSELF, NO_CODE, SHORT};
use ease_base::{MemSink, NoMemory};
use ease_cli::Status;
use std::alloc::Global;
use std::test::Fail;

// Plays a script on an image and a world.
fn debug(
    alloc: Global,
    image: &[u8],
    world: &str,
    script: &[u8],
    fails: &[u32],
) -> Result<Ran, NoMemory> {
    let out = MemSink::make(alloc, 1_000, calls(alloc, &[])?)?;
    let contents = (image, world.as_bytes(), script);
    run_three(alloc, &["debug", "p", "w", "s"], contents, fails, out)
}

/// An image, a world, a script, the status, and what is written.
type Case = (
    &'static [u8],
    &'static str,
    &'static str,
    Status,
    &'static str,
);

const NINE: &str = "[readings]\ntemp = [9]\n";

const SESSIONS: [Case; 15] = [
    (HALT, "", "", Status::Ok, "boot 1\nend script\n"),
    (HALT, "", "step 1", Status::Ok, "boot 1\nend halted\n"),
    (
        HALT,
        "[[power]]\non = 0\n",
        "\n\nregs\n",
        Status::Ok,
        "boot 1\nregs 0 0 0 0 0 0 0 0 0 0 0 0 0 0 0 0 0\nend script\n",
    ),
    (
        ASKS,
        NINE,
        "step 2\nregs\nfail 10 0\nstep 10\n",
        Status::Ok,
        "boot 1\nlook 0\nregs 2 0 7 1 0 0 0 0 0 0 0 0 0 0 0 0 0\nboot 2\nlook 0\nissue 0 temp 7 = 9\nend halted\n",
    ),
    (
        NO_CODE,
        "",
        "step 1\nfail 0 0\n",
        Status::Trapped,
        "boot 1\ntrap 17\nend trapped 17\n",
    ),
    (
        JUMPS_TO_ITSELF,
        "",
        "fail 4294967295 0\nstep 1\nfail 0 0\n",
        Status::PowerEnded,
        "boot 1\nboot 2\nend power\n",
    ),
    (HALT, "", "jump 3", Status::ScriptRefused, "script line 1\n"),
    (
        ASKS,
        "",
        "regs\n\nto 1\njump",
        Status::ScriptRefused,
        "script line 3\n",
    ),
    (
        ASKS,
        "",
        "show temp\n",
        Status::ScriptRefused,
        "script line 1\n",
    ),
    (
        HALT,
        NINE,
        "regs",
        Status::WorldRefused,
        "world unknown-peripheral\n",
    ),
    (
        HALT,
        "]",
        "jump 3",
        Status::WorldRefused,
        "world not-toml\n",
    ),
    (SHORT, "]", "jump 3", Status::ImageRefused, "image short\n"),
    (SHORT, "", "regs", Status::ImageRefused, "image short\n"),
    (
        HALT,
        "[[power]]\non = 4194305\n",
        "regs",
        Status::WorldRefused,
        "world too-many-steps 4194305\n",
    ),
    (
        HALT,
        "",
        "step 1\r\n",
        Status::ScriptRefused,
        "script line 1\n",
    ),
];

#[test]
fn debug_writes_the_session_or_the_line_of_a_refusal(rt: HostRuntime) -> Result<(), Fail> {
    for (image, world, script, status, text) in SESSIONS {
        let ran = debug(rt.alloc(), image, world, script.as_bytes(), &[])?;
        assert_eq!(rt; ran.status, status, "for {script:?}");
        assert_eq!(rt; ran.out.taken(), text.as_bytes(), "for {script:?}");
    }
    Ok(())
}

#[test]
fn a_script_has_at_most_its_limit_of_bytes(rt: HostRuntime) -> Result<(), Fail> {
    let alloc = rt.alloc();
    let long = vec![in alloc; b'\n'; 65_537]?;
    let (most, _) = long.as_slice().split_at(65_536);
    let ran = debug(alloc, HALT, "", most, &[])?;
    assert_eq!(rt; ran.status, Status::Ok);
    assert_eq!(rt; ran.out.taken(), b"boot 1\nend script\n".as_slice());
    let ran = debug(alloc, HALT, "", long.as_slice(), &[])?;
    assert_eq!(rt; ran.status, Status::TooLong);
    assert_eq!(rt; ran.out.taken(), b"too long\n".as_slice());
    Ok(())
}

#[test]
fn the_fetches_of_a_session_fail_in_turn(rt: HostRuntime) -> Result<(), Fail> {
    let cases: [(&str, u32, Status, &str); 4] = [
        ("]", 1, Status::ReadFault, "read fault\n"),
        ("", 2, Status::ReadFault, "read fault\n"),
        ("", 3, Status::ReadFault, "read fault\n"),
        ("]", 3, Status::WorldRefused, "world not-toml\n"),
    ];
    for (world, number, status, text) in cases {
        let ran = debug(rt.alloc(), HALT, world, b"jump 3", &[number])?;
        assert_eq!(rt; ran.status, status, "for {number}");
        assert_eq!(rt; ran.out.taken(), text.as_bytes(), "for {number}");
    }
    Ok(())
}

#[test]
fn a_session_ends_before_the_line_whose_write_fails(rt: HostRuntime) -> Result<(), Fail> {
    let cases = [
        (1, ""),
        (2, "boot 1\n"),
        (3, "boot 1\nlook 0\n"),
        (4, "boot 1\nlook 0\nboot 2\n"),
    ];
    for (write, front) in cases {
        let alloc = rt.alloc();
        let out = MemSink::make(alloc, 1_000, calls(alloc, &[write])?)?;
        let contents = (ASKS, [].as_slice(), b"step 2\nfail 0 0\n".as_slice());
        let ran = run_three(alloc, &["debug", "p", "w", "s"], contents, &[], out)?;
        assert_eq!(rt; ran.status, Status::WriteFault, "for {write}");
        assert_eq!(rt; ran.out.taken(), front.as_bytes(), "for {write}");
    }
    Ok(())
}

#[test]
fn a_message_that_failed_before_its_seal_is_sent_again(rt: HostRuntime) -> Result<(), Fail> {
    let script = b"to 1\nto 1\nto 1\nfail 10 0\nstep 10000\nshow n\n";
    let text =
        "boot 1\nbegin 1\nlook 1\ndrop 1\nissue 1 radio 7 = 1\nboot 2\nbegin 1\nlook 1\ndrop 1\nissue 1 radio 7 = 2\nseal 1\ncommit 0\nn = 9\nend halted\n";
    for scheme in ["undo", "bank"] {
        let alloc = rt.alloc();
        let built = run(alloc, &["build", "p", "--scheme", scheme], SEND, 20_000)?;
        let world = "[readings]\nradio = [1, 2, 3]\n";
        let ran = debug(alloc, built.out.taken(), world, script, &[])?;
        assert_eq!(rt; ran.status, Status::Ok, "for {scheme}");
        assert_eq!(rt; ran.out.taken(), text.as_bytes(), "for {scheme}");
    }
    Ok(())
}
