//! Each instruction on its edge operands, jumps, ends and traps.
use crate::bed::Bed;
use ease_base::List;
use std::test::Fail;
use word_machine::Stepped;

#[test]
fn each_instruction_does_its_row(rt: HostRuntime) -> Result<(), Fail> {
    // an instruction with a in r1 and b in r2, the two words before, and r1 after
    let table = [
        (0x0210_ffff, 5, 0, 65_535),
        (0x0310_0001, 0xdead_beef, 0, 0x0001_beef),
        (0x0310_ffff, 7, 0, 0xffff_0007),
        (0x0412_0000, 1, 0xffff_ffff, 0xffff_ffff),
        (0x0512_0000, 0xffff_ffff, 1, 0),
        (0x0512_0000, 0x8000_0000, 0x8000_0001, 1),
        (0x0511_0000, 0x8000_0001, 0, 2),
        (0x0612_0000, 0, 1, 0xffff_ffff),
        (0x0612_0000, 5, 5, 0),
        (0x0611_0000, 9, 0, 0),
        (0x0712_0000, 0x1_0000, 0x1_0000, 0),
        (0x0712_0000, 0xffff_ffff, 0xffff_ffff, 1),
        (0x0812_0000, 7, 2, 3),
        (0x0812_0000, 0xffff_ffff, 1, 0xffff_ffff),
        (0x0812_0000, 1, 0xffff_ffff, 0),
        (0x0912_0000, 7, 2, 1),
        (0x0912_0000, 5, 0xffff_ffff, 5),
        (0x0a12_0000, 0xff00_ff00, 0x0ff0_0ff0, 0x0f00_0f00),
        (0x0b12_0000, 0xff00_ff00, 0x0ff0_0ff0, 0xfff0_fff0),
        (0x0c12_0000, 0xff00_ff00, 0x0ff0_0ff0, 0xf0f0_f0f0),
        (0x0d12_0000, 0x8000_0001, 1, 2),
        (0x0d12_0000, 1, 31, 0x8000_0000),
        (0x0d12_0000, 1, 32, 0),
        (0x0d12_0000, 1, 0xffff_ffff, 0),
        (0x0d12_0000, 7, 0, 7),
        (0x0e12_0000, 0x8000_0001, 1, 0x4000_0000),
        (0x0e12_0000, 0x8000_0000, 31, 1),
        (0x0e12_0000, 0xffff_ffff, 32, 0),
        (0x0e12_0000, 7, 0, 7),
        (0x0f12_0000, 3, 3, 1),
        (0x0f12_0000, 3, 4, 0),
        (0x1012_0000, 0xffff_ffff, 0, 0),
        (0x1012_0000, 0, 0xffff_ffff, 1),
        (0x1012_0000, 3, 3, 0),
        (0x1110_ffff, 0xffff_ffff, 0, 0xfffe),
        (0x1710_0000, 9, 9, 4),
    ];
    for (word, a, b, after) in table {
        let code = [
            0x0210_0000 | a % 65_536,
            0x0310_0000 | a / 65_536,
            0x0220_0000 | b % 65_536,
            0x0320_0000 | b / 65_536,
            word,
        ];
        let bed = Bed::make(rt.alloc(), &code, &[], List::new(rt.alloc()))?;
        let mut bed = bed.expect(&rt, "an image");
        let answer = bed.steps(5);
        assert!(rt; matches!(answer, Some(Stepped::Ran(_))), "at {word}");
        assert_eq!(rt; bed.machine.register(1), after, "at {word} of {a} and {b}");
        assert_eq!(rt; bed.machine.register(0), 0, "at {word}");
        assert_eq!(rt; bed.machine.pc(), 5, "at {word}");
    }
    Ok(())
}

#[test]
fn jumps_and_ends_leave_the_counter_where_they_say(rt: HostRuntime) -> Result<(), Fail> {
    // an instruction at address 1 with a in r1, its word before, the answer, and the counter after
    let table = [
        (0x1400_0000, 0, Stepped::Ran(None), 0),
        (0x14ff_ffff, 0, Stepped::Ran(None), 0xff_ffff),
        (0x1510_0005, 0, Stepped::Ran(None), 7),
        (0x1510_ffff, 0, Stepped::Ran(None), 65_537),
        (0x1510_0000, 0, Stepped::Ran(None), 2),
        (0x1510_0005, 1, Stepped::Ran(None), 2),
        (0x0100_0000, 0, Stepped::Halted, 2),
        (0x1900_0000, 0, Stepped::Trapped(0), 2),
        (0x1900_ffff, 0, Stepped::Trapped(65_535), 2),
        (0x0812_0000, 7, Stepped::Trapped(2), 2),
        (0x0912_0000, 7, Stepped::Trapped(2), 2),
    ];
    for (word, a, answer, counter) in table {
        let code = [0x0210_0000 | a, word];
        let bed = Bed::make(rt.alloc(), &code, &[], List::new(rt.alloc()))?;
        let mut bed = bed.expect(&rt, "an image");
        assert_eq!(rt; bed.steps(2), Some(answer), "at {word} with {a}");
        assert_eq!(rt; bed.machine.pc(), counter, "at {word} with {a}");
        assert_eq!(rt; bed.machine.register(1), a, "at {word}");
        assert_eq!(rt; bed.outside.clock.now(), 2, "at {word}");
    }
    Ok(())
}

#[test]
fn a_machine_at_its_end_stays_as_it_is(rt: HostRuntime) -> Result<(), Fail> {
    // LDI r1 7, and then: HALT; nothing, so trap 17 with the counter where it was; TRAP 3
    let table = [
        (&[0x0210_0007, 0x0100_0000][..], Stepped::Halted, 2),
        (&[0x0210_0007][..], Stepped::Trapped(17), 1),
        (&[0x0210_0007, 0x1900_0003][..], Stepped::Trapped(3), 2),
    ];
    for (code, answer, counter) in table {
        let bed = Bed::make(rt.alloc(), code, &[], List::new(rt.alloc()))?;
        let mut bed = bed.expect(&rt, "an image");
        for steps in [2, 1, 5] {
            assert_eq!(rt; bed.steps(steps), Some(answer), "of {counter}");
            bed.machine.fail(9);
            assert_eq!(rt; bed.machine.pc(), counter);
            assert_eq!(rt; bed.machine.register(1), 7);
            assert_eq!(rt; bed.outside.clock.now(), 2);
        }
    }
    Ok(())
}
