//! Sessions: each command, the six reasons, ended machines and spent sessions.
use crate::bed::{EVENTS, HALTING, LOOPING, play};
use ease_debug::DebugEnd;
use image_file::read_image;
use power_trace::RunError;
use std::test::Fail;

/// A script with its lines.
#[derive(Clone, Copy)]
struct Case {
    script: &'static str,
    lines: &'static str,
    end: DebugEnd,
}

// What a session of `step 2` writes.
const TWO_STEPS: &str = "boot 1\nbegin 2\nlook 1\nend script\n";

/// A list of cases, a script with its lines and its end each.
macro_rules! cases {
    ($($script:literal => $lines:literal $end:ident;)*) => {
        [$(Case { script: $script, lines: $lines, end: DebugEnd::$end }),*]
    };
}

#[test]
fn each_command_writes_its_lines(rt: HostRuntime) -> Result<(), Fail> {
    let image = read_image(rt.alloc(), EVENTS).ok().expect(&rt, "an image");
    let cases = cases! {
        "" => "boot 1\nend script\n" Script;
        "step 2" => "boot 1\nbegin 2\nlook 1\nend script\n" Script;
        "to 1\n\nto 1\n" => "boot 1\nbegin 2\nlook 1\nkept 1 7\nend script\n" Script;
        "to 2\nwhy 2\n" => "boot 1\nbegin 2\nlook 1\nkept 1 7\ndrop 1\nissue 1 temp 7 = 9\nseal 1\ncopy 2 a[2] keep 2\nwhy 2 first\nend script\n" Script;
        "at 2 3\nwhy 2" => "boot 1\nbegin 2\nlook 1\nkept 1 7\ndrop 1\nissue 1 temp 7 = 9\nseal 1\ncopy 2 a[2] keep 2\ncopy 3 a[3] @200 2\nwhy 2 first\nend script\n" Script;
        "step 6\nregs\nshow a\n" => "boot 1\nbegin 2\nlook 1\nkept 1 7\ndrop 1\nissue 1 temp 7 = 9\nseal 1\nregs 6 0 7 1 9 0 0 0 0 0 0 0 0 0 0 0 0\na = 0 0 0 0\nend script\n" Script;
        "fail 10 3\nregs\nto 1" => "boot 1\nboot 2\nregs 0 3 3 3 3 3 3 3 3 3 3 3 3 3 3 3 3\nbegin 2\nlook 1\nend script\n" Script;
    };
    for case in &cases {
        let played = play(rt.alloc(), &image, case.script, None)?;
        assert_eq!(rt; played.sink.taken(), case.lines.as_bytes());
        assert_eq!(rt; played.end, Ok(case.end));
    }
    Ok(())
}

#[test]
fn a_site_was_decided_for_six_reasons(rt: HostRuntime) -> Result<(), Fail> {
    let image = read_image(rt.alloc(), EVENTS).ok().expect(&rt, "an image");
    let cases = cases! {
        "step 6\nfail 0 0\nwhy 1\nstep 1\nwhy 1\nstep 1\nwhy 1\nstep 1\nwhy 1\nstep 2\nwhy 1\n" => "boot 1\nbegin 2\nlook 1\nkept 1 7\ndrop 1\nissue 1 temp 7 = 9\nseal 1\nboot 2\nwhy 1 not-reached\nbegin 2\nwhy 1 not-reached\nlook 1\nwhy 1 looked\nkept 1 7\nwhy 1 kept\ndrop 1\nissue 1 temp 7 = 9\nwhy 1 repeated\nend script\n" Script;
        "step 6\nfail 0 0\nstep 4\nfail 0 0\nstep 5\nwhy 1\n" => "boot 1\nbegin 2\nlook 1\nkept 1 7\ndrop 1\nissue 1 temp 7 = 9\nseal 1\nboot 2\nbegin 2\nlook 1\nkept 1 7\ndrop 1\nboot 3\nbegin 2\nlook 1\nkept 1 7\ndrop 1\nissue 1 temp 7 = 9\nwhy 1 dropped\nend script\n" Script;
        "step 5\nfail 0 0\nstep 5\nwhy 1\nstep 1\nwhy 1\n" => "boot 1\nbegin 2\nlook 1\nkept 1 7\ndrop 1\nissue 1 temp 7 = 9\nboot 2\nbegin 2\nlook 1\nkept 1 7\ndrop 1\nissue 1 temp 7 = 9\nwhy 1 first\nseal 1\nwhy 1 first\nend script\n" Script;
        "step 19\nwhy 1\n" => "boot 1\nbegin 2\nlook 1\nkept 1 7\ndrop 1\nissue 1 temp 7 = 9\nseal 1\ncopy 2 a[2] keep 2\ncopy 3 a[3] @200 2\nissue 0 #7 = 0\ncommit 0\nwhy 1 not-reached\nend script\n" Script;
    };
    for case in &cases {
        let played = play(rt.alloc(), &image, case.script, None)?;
        assert_eq!(rt; played.sink.taken(), case.lines.as_bytes());
        assert_eq!(rt; played.end, Ok(case.end));
    }
    Ok(())
}

#[test]
fn an_ended_machine_does_nothing(rt: HostRuntime) -> Result<(), Fail> {
    let image = read_image(rt.alloc(), HALTING).ok().expect(&rt, "an image");
    let cases = cases! {
        "step 1" => "boot 1\nend halted\n" Halted;
        "step 4194304\nstep 1\nfail 4294967295 1\nregs" => "boot 1\nregs 1 0 0 0 0 0 0 0 0 0 0 0 0 0 0 0 0\nend halted\n" Halted;
    };
    for case in &cases {
        let played = play(rt.alloc(), &image, case.script, None)?;
        assert_eq!(rt; played.sink.taken(), case.lines.as_bytes());
        assert_eq!(rt; played.end, Ok(case.end));
    }
    let trapping = read_image(rt.alloc(), EVENTS).ok().expect(&rt, "an image");
    let played = play(
        rt.alloc(),
        &trapping,
        "step 4194304\nto 1\nat 2 1\nfail 0 0\n",
        None,
    )?;
    assert_eq!(rt; played.end, Ok(DebugEnd::Trapped(5)));
    Ok(())
}

#[test]
fn a_session_is_spent_by_the_step_past_its_limits(rt: HostRuntime) -> Result<(), Fail> {
    let image = read_image(rt.alloc(), LOOPING).ok().expect(&rt, "an image");
    let cases = cases! {
        "step 4194303\nstep 1\nfail 0 0\nstep 1\nfail 0 0" => "boot 1\nboot 2\nend power\n" Power;
        "fail 4294967295 0" => "boot 1\nboot 2\nend script\n" Script;
        "fail 4294967295 0\nstep 1\nfail 0 0" => "boot 1\nboot 2\nend power\n" Power;
        "step 1\nfail 4294967295 0\nregs" => "boot 1\nregs 0 0 0 0 0 0 0 0 0 0 0 0 0 0 0 0 0\nend power\n" Power;
        "fail 4294967294 0\nstep 1" => "boot 1\nboot 2\nend script\n" Script;
    };
    for case in &cases {
        let played = play(rt.alloc(), &image, case.script, None)?;
        assert_eq!(rt; played.sink.taken(), case.lines.as_bytes());
        assert_eq!(rt; played.end, Ok(case.end));
    }
    Ok(())
}

#[test]
fn a_failing_write_leaves_a_front(rt: HostRuntime) -> Result<(), Fail> {
    let image = read_image(rt.alloc(), EVENTS).ok().expect(&rt, "an image");
    let mut lines = TWO_STEPS.lines();
    let mut front = 0;
    for number in 1..5 {
        let played = play(rt.alloc(), &image, "step 2", Some(number))?;
        assert_eq!(rt; played.end, Err(RunError::WriteFault));
        assert_eq!(rt;
            Some(played.sink.taken()),
            TWO_STEPS.as_bytes().get(..front)
        );
        front += lines.next().map_or(0, |line| line.len() + 1);
    }
    Ok(())
}
