//! Scripts that are accepted, and the first line of those that are refused.
use crate::bed::{EVENTS, HALTING, refusal};
use ease_base::{NoMemory, Text};
use ease_debug::ScriptError;
use image_file::read_image;
use std::alloc::Global;
use std::test::Fail;

const ACCEPTED: &[&str] = &[
    "",
    "\n",
    "\n\n\n",
    "step 1",
    "step 4194304\n",
    "fail 0 0",
    "fail 4294967295 4294967295\n",
    "to 1",
    "to 3\n",
    "at 2 1",
    "at 2 3\n",
    "show a",
    "regs",
    "why 2",
    "step 1\n\nregs\n",
    "regs\nregs",
];

const REFUSED: &[(&str, u32)] = &[
    ("jump 3", 1),
    ("step", 1),
    ("step 0", 1),
    ("step 4194305", 1),
    ("step 01", 1),
    ("step +1", 1),
    ("step -1", 1),
    ("step 1 ", 1),
    (" step 1", 1),
    ("step  1", 1),
    ("step\t1", 1),
    ("step 1\r\n", 1),
    ("step 1 1", 1),
    ("Step 1", 1),
    ("ste 1", 1),
    ("stepp 1", 1),
    (
        "step 1000000000000000000000000000000000000000000000000000000000000000000000000000000000000000000000000000",
        1,
    ),
    ("fail 0", 1),
    ("fail 4294967296 0", 1),
    ("fail 0 4294967296", 1),
    ("fail 0 0 0", 1),
    ("fail 00 0", 1),
    ("fail 0 00", 1),
    ("fail 0  0", 1),
    ("fail  0 0", 1),
    ("to 0", 1),
    ("to 4", 1),
    ("to 01", 1),
    ("to 255", 1),
    ("to 256", 1),
    ("to 257", 1),
    ("to  1", 1),
    ("to\t1", 1),
    ("to", 1),
    ("at 1 1", 1),
    ("at 2", 1),
    ("at 0 1", 1),
    ("at 65 1", 1),
    ("at 258 1", 1),
    ("at 2 4", 1),
    ("at 2 0", 1),
    ("at 2 257", 1),
    ("at 02 1", 1),
    ("at 2 01", 1),
    ("at 2  1", 1),
    ("at 2 1 1", 1),
    ("show", 1),
    ("show ", 1),
    ("show b", 1),
    ("show A", 1),
    ("show aa", 1),
    ("show temp", 1),
    ("show a a", 1),
    ("show  a", 1),
    ("show a\r", 1),
    ("regs 1", 1),
    ("regs ", 1),
    ("regs\r\n", 1),
    ("\tregs", 1),
    ("why", 1),
    ("why 0", 1),
    ("why 4", 1),
    ("why 02", 1),
    ("why  2", 1),
    ("why 2\t", 1),
    ("\r\n", 1),
    ("regs\n\n\nregs\nstep", 5),
    ("\n\n ", 3),
    ("step 1\nregs\nstep 0\njump", 3),
];

#[test]
fn scripts_of_the_grammar_are_read(rt: HostRuntime) -> Result<(), Fail> {
    let image = read_image(rt.alloc(), EVENTS).ok().expect(&rt, "an image");
    for script in ACCEPTED {
        assert_eq!(rt; refusal(rt.alloc(), &image, script.as_bytes()), None);
    }
    Ok(())
}

#[test]
fn the_first_line_that_may_not_stand_is_told(rt: HostRuntime) -> Result<(), Fail> {
    let image = read_image(rt.alloc(), EVENTS).ok().expect(&rt, "an image");
    for (script, line) in REFUSED {
        assert_eq!(rt;
            refusal(rt.alloc(), &image, script.as_bytes()),
            Some(ScriptError::Line(*line))
        );
    }
    assert_eq!(rt;
        refusal(rt.alloc(), &image, &[255, 10]),
        Some(ScriptError::Line(1))
    );
    assert_eq!(rt;
        refusal(rt.alloc(), &image, &[115, 116, 101, 112, 32, 255]),
        Some(ScriptError::Line(1))
    );
    Ok(())
}

#[test]
fn sites_must_stand_in_the_image(rt: HostRuntime) -> Result<(), Fail> {
    let image = read_image(rt.alloc(), HALTING).ok().expect(&rt, "an image");
    for script in &["to 1", "why 1", "at 1 1", "show a"] {
        assert_eq!(rt;
            refusal(rt.alloc(), &image, script.as_bytes()),
            Some(ScriptError::Line(1))
        );
    }
    Ok(())
}

/// A line that may stand, and the bytes that may stand at its places in turn; at all others its own alone may.
struct Line {
    text: &'static str,
    may_stand: &'static [(usize, &'static str)],
}

// `EVENTS` has the sites 1 to 3 in task 2 and the symbol `a`. A line feed at the end of `step 12` leaves `step 1`.
const LINES: &[Line] = &[
    Line {
        text: "step 12",
        may_stand: &[(5, "123456789"), (6, "0123456789\n")],
    },
    Line {
        text: "fail 30 7",
        may_stand: &[(5, "123456789"), (6, "0123456789"), (8, "0123456789")],
    },
    Line {
        text: "to 1",
        may_stand: &[(3, "123")],
    },
    Line {
        text: "at 2 1",
        may_stand: &[(5, "123")],
    },
    Line {
        text: "show a",
        may_stand: &[],
    },
    Line {
        text: "regs",
        may_stand: &[],
    },
    Line {
        text: "why 2",
        may_stand: &[(4, "123")],
    },
];

// Whether the byte may stand at the place of the line, in front of these bytes of it.
fn may_stand(line: &Line, at: usize, byte: u8, own: &[u8]) -> bool {
    own.first() == Some(&byte)
        || line.may_stand.iter().any(|(place, bytes)| *place == at
            && bytes.as_bytes().contains(&byte))
}

// The first line that is refused where the byte stands at the place of the line: a line feed at its begin leaves an empty one.
fn refused_line(line: &Line, at: usize, byte: u8, own: &[u8]) -> Option<ScriptError> {
    if may_stand(line, at, byte, own) {
        return None;
    }
    if at == 0 && byte == b'\n' {
        return Some(ScriptError::Line(2));
    }
    Some(ScriptError::Line(1))
}

// The text with a byte in place of the first of those behind.
fn changed(alloc: Global, front: &[u8], byte: u8, behind: &[u8]) -> Result<Text, NoMemory> {
    let mut text = Text::from_slice(alloc, front)?;
    text.push(byte)?;
    if let Some((_, rest)) = behind.split_first() {
        text.extend(rest)?;
    }
    Ok(text)
}

#[test]
fn a_line_with_one_byte_changed_is_refused_or_another(rt: HostRuntime) -> Result<(), Fail> {
    let alloc = rt.alloc();
    let image = read_image(alloc, EVENTS).ok().expect(&rt, "an image");
    for line in LINES {
        for at in 0..line.text.len() {
            let (front, behind) = line.text.as_bytes().split_at(at);
            for byte in 0..255u8 {
                let script = changed(alloc, front, byte, behind)?;
                assert_eq!(rt;
                    refusal(alloc, &image, script.as_slice()),
                    refused_line(line, at, byte, behind)
                );
            }
        }
    }
    Ok(())
}

// A text of a hundred digits between two others, the first digit a 0 or not.
fn with_digits(alloc: Global, front: &str, first: u8, back: &str) -> Result<Text, NoMemory> {
    let mut text = Text::from_slice(alloc, front.as_bytes())?;
    text.push(first)?;
    for _ in 0..99 {
        text.push(b'1')?;
    }
    text.extend(back.as_bytes())?;
    Ok(text)
}

#[test]
fn numbers_of_a_hundred_digits_are_refused(rt: HostRuntime) -> Result<(), Fail> {
    let alloc = rt.alloc();
    let image = read_image(alloc, EVENTS).ok().expect(&rt, "an image");
    let places = [
        ("step ", ""),
        ("fail ", " 0"),
        ("fail 0 ", ""),
        ("to ", ""),
        ("at ", " 1"),
        ("at 2 ", ""),
        ("show ", ""),
        ("why ", ""),
    ];
    for (front, back) in places {
        for first in [b'0', b'1', b'9'] {
            let script = with_digits(alloc, front, first, back)?;
            let refused = refusal(alloc, &image, script.as_slice());
            assert_eq!(rt; refused, Some(ScriptError::Line(1)), "for {front:?}");
        }
    }
    Ok(())
}

#[test]
fn empty_lines_are_skipped_and_counted(rt: HostRuntime) -> Result<(), Fail> {
    let alloc = rt.alloc();
    let image = read_image(alloc, EVENTS).ok().expect(&rt, "an image");
    let mut script = Text::new(alloc);
    for _ in 0..65_535 {
        script.push(b'\n')?;
    }
    assert_eq!(rt; refusal(alloc, &image, script.as_slice()), None);
    script.push(b'1')?;
    assert_eq!(rt;
        refusal(alloc, &image, script.as_slice()),
        Some(ScriptError::Line(65_536))
    );
    Ok(())
}
