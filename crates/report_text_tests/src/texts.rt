//! The texts of single lines: each rule of the grammar kept at its limits, and broken once.
use crate::bed::refusal;
use ease_base::NoMemory;
use report_text::ReportError;
use std::alloc::Global;
use std::test::Fail;

const READ: &[&str] = &[
    "0 boot 1",
    "4294967295 boot 4294967295",
    "10 boot 0",
    "5 begin 1",
    "5 look 0 4294967295",
    "5 kept 300 7",
    "5 drop 0",
    "5 issue 1 radio = 1",
    "5 issue 1 radio 1 2 3 4 = 5",
    "5 issue 1 _ = 1",
    "5 issue 1 _a1Z = 1",
    "5 issue 1 while 0 = 0",
    "5 issue 1 #4294967295 = 1",
    "5 issue 1 #0 = 1",
    "5 seal 1",
    "5 copy 1 samples[0] keep 8",
    "5 copy 1 @0 @4294967295 0",
    "5 copy 4294967295 _[4294967295] if[10] 4294967295",
    "5 commit 0",
    "5 trap 0",
];

const REFUSED: &[&str] = &[
    "",
    "0",
    "0 ",
    "boot 1",
    "01 boot 1",
    "00 boot 1",
    "+1 boot 1",
    "-1 boot 1",
    "0x1 boot 1",
    "4294967296 boot 1",
    "99999999999999999999999999999999999999 boot 1",
    " 0 boot 1",
    "0  boot 1",
    "0\tboot 1",
    "0 boot\t1",
    "0 boot 1 ",
    "0 boot  1",
    "0 Boot 1",
    "0 boots 1",
    "0 boo 1",
    "0 jump 1",
    "0 boot",
    "0 boot ",
    "0 boot one",
    "0 boot 01",
    "0 boot 4294967296",
    "0 boot 1 1",
    "0 begin",
    "0 begin 1 1",
    "0 look 1",
    "0 look 1 1 1",
    "0 look 1 01",
    "0 kept 1",
    "0 kept 01 1",
    "0 drop",
    "0 drop 1 1",
    "0 issue 1",
    "0 issue 1 radio",
    "0 issue 1 radio 7",
    "0 issue 1 radio 7 =",
    "0 issue 1 radio 7 = ",
    "0 issue 1 radio 7 =1",
    "0 issue 1 radio 7= 1",
    "0 issue 1 radio 7 == 1",
    "0 issue 1 radio 7 = 1 1",
    "0 issue 1 radio 7 = 01",
    "0 issue 1 radio 7  = 1",
    "0 issue 1 radio 07 = 1",
    "0 issue 1 radio 1 2 3 4 5 = 1",
    "0 issue 1 = 1",
    "0 issue 1  = 1",
    "0 issue radio 7 = 1",
    "0 issue 1 7radio = 1",
    "0 issue 1 ra-dio = 1",
    "0 issue 1 # = 1",
    "0 issue 1 #01 = 1",
    "0 issue 1 ##1 = 1",
    "0 issue 1 #1a = 1",
    "0 issue 1 #4294967296 = 1",
    "0 seal",
    "0 copy 1 a[0] b[0]",
    "0 copy 1 a[0] 2",
    "0 copy 1 a[0] b[0] 1 1",
    "0 copy 1 a b[0] 1",
    "0 copy 1 a[] b[0] 1",
    "0 copy 1 a[0 b[0] 1",
    "0 copy 1 a0] b[0] 1",
    "0 copy 1 a[0]] b[0] 1",
    "0 copy 1 a[0][0] b[0] 1",
    "0 copy 1 a[0]x b[0] 1",
    "0 copy 1 a[00] b[0] 1",
    "0 copy 1 a[4294967296] b[0] 1",
    "0 copy 1 [0] b[0] 1",
    "0 copy 1 1a[0] b[0] 1",
    "0 copy 1 #1[0] b[0] 1",
    "0 copy 1 a[0] @ 1",
    "0 copy 1 a[0] @01 1",
    "0 copy 1 a[0] @4294967296 1",
    "0 copy 1 a[0] Keep 1",
    "0 copy 1 a[0] keeps 1",
    "0 copy 1 a[0] #1 1",
    "0 commit",
    "0 commit 0 0",
    "0 trap",
    "0 trap -1",
    "0 end",
    "0 end ",
    "0 end halt",
    "0 end stopped",
    "0 end halted ",
    "0 end halted 1",
    "0 end trapped",
    "0 end trapped 01",
    "0 end trapped 1 1",
    "0 end power 0",
    "0 halted",
];

// A report of this line, and an end behind it.
fn report(alloc: Global, line: &str) -> Result<String, NoMemory> {
    let text = format!(in alloc; "{line}\n9 end halted\n")?;
    Ok(text)
}

#[test]
fn lines_of_the_grammar_are_read(rt: HostRuntime) -> Result<(), Fail> {
    for line in READ {
        let text = report(rt.alloc(), *line)?;
        assert_eq!(rt; refusal(rt.alloc(), text.as_bytes()), None, "at {line}");
    }
    Ok(())
}

#[test]
fn each_broken_line_is_told(rt: HostRuntime) -> Result<(), Fail> {
    for line in REFUSED {
        let text = report(rt.alloc(), *line)?;
        assert_eq!(rt;
            refusal(rt.alloc(), text.as_bytes()),
            Some(ReportError::Line(1)),
            "at {line}"
        );
    }
    Ok(())
}
