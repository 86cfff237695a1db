//! Whole reports: what their lines tell, and which line is refused.
use crate::bed::{refusal, told};
use report_text::ReportError;
use std::test::Fail;

/// Reports, and what is told of them.
const READ: &[(&str, &str)] = &[
    ("0 end power\n", "0: power;"),
    ("7 end halted\n", "7: halted;"),
    (
        "4294967295 end trapped 4294967295\n",
        "4294967295: trapped 4294967295;",
    ),
    (
        "0 boot 1\n1 begin 1\n2 look 1 1\n3 drop 1\n4 issue 1 radio 7 = 1\n5 seal 1\n6 commit 0\n7 end halted\n",
        "0: Boot 1;1: Begin 1;2: Look 1 at 1;3: Drop 1;4: Issue 1 'radio' 1 of 7 0 0 0 gives 1;5: Seal 1;6: Commit 0;7: halted;",
    ),
    (
        "5 boot 2\n6 begin 1\n7 look 1 6\n8 kept 1 1\n9 commit 0\n10 end halted\n",
        "5: Boot 2;6: Begin 1;7: Look 1 at 6;8: Kept 1 with 1;9: Commit 0;10: halted;",
    ),
    (
        "3 copy 1 samples[0] keep 8\n4 copy 1 keep _b2[4294967295] 8\n5 copy 2 @64 keep[7] 0\n5 end power\n",
        "3: Copy 1 from 'samples' at 0 to kept words of 8;4: Copy 1 from kept words to '_b2' at 4294967295 of 8;5: Copy 2 from address 64 to 'keep' at 7 of 0;5: power;",
    ),
    (
        "1 issue 0 #7 = 9\n2 issue 300 temp 1 2 3 4 = 5\n3 issue 1 t 0 4294967295 = 0\n4 trap 5\n4 end trapped 5\n",
        "1: Issue 0 '#7' 0 of 0 0 0 0 gives 9;2: Issue 300 'temp' 4 of 1 2 3 4 gives 5;3: Issue 1 't' 2 of 0 4294967295 0 0 gives 0;4: Trap 5;4: trapped 5;",
    ),
];

/// Broken reports, and the line that is refused.
const REFUSED: &[(&str, u32)] = &[
    ("", 1),
    ("0 boot 1\n", 2),
    ("0 boot 1\n1 begin 1\n", 3),
    ("0 end power", 1),
    ("0 boot 1\n1 end power", 2),
    ("\n0 end power\n", 1),
    ("0 boot 1\n\n1 end power\n", 2),
    ("0 end power\n\n", 2),
    ("0 end power\n0 end power\n", 2),
    ("0 end power\nx", 2),
    ("0 end power\n0 boot 1\n", 2),
    ("0 boot 1\n1 end halted\n1 begin 1\n2 end halted\n", 3),
    ("0 boot 1\nx\ny\n2 end halted\n", 2),
    ("0 boot 1\r\n1 end power\r\n", 1),
    ("0 boot 1\n1 end power\r\n", 2),
    (
        "boot 1\nbegin 1\nlook 1 1\ndrop 1\nissue 1 radio 7 = 1\nseal 1\ncommit 0\nend halted\n",
        1,
    ),
    ("0 boot 1\n1 begin 1\n2 look 1\n3 end power\n", 3),
];

#[test]
fn reports_of_the_grammar_are_read(rt: HostRuntime) -> Result<(), Fail> {
    for (report, lines) in READ.iter() {
        let line = told(rt.alloc(), report.as_bytes())?;
        assert_eq!(rt; line.as_str(), *lines);
    }
    Ok(())
}

#[test]
fn the_first_line_that_may_not_stand_is_told(rt: HostRuntime) -> Result<(), Fail> {
    for (report, line) in REFUSED {
        assert_eq!(rt;
            refusal(rt.alloc(), report.as_bytes()),
            Some(ReportError::Line(*line))
        );
    }
    Ok(())
}

#[test]
fn bytes_that_are_no_text_are_no_line(rt: HostRuntime) -> Result<(), Fail> {
    for bytes in [b"0 boot \xff\n", b"\x00 boot 1\n", b"0 b\xc3\xb6t 1\n"] {
        assert_eq!(rt; refusal(rt.alloc(), bytes), Some(ReportError::Line(1)));
    }
    Ok(())
}
