//! Transfers: their events, failures inside them, and traps.
use crate::bed::Bed;
use devices::Event;
use ease_base::{List, NoMemory};
use std::alloc::Global;
use std::test::Fail;
use word_isa::{Mark, MarkKind};
use word_machine::Stepped;

// LDI r1 10, LDI r2 8, LDI r3 3, DMA r1 r2 r3, LDI r4 1, HALT
const CODE: [u32; 6] = [
    0x0210_000a,
    0x0220_0008,
    0x0230_0003,
    0x1812_0003,
    0x0240_0001,
    0x0100_0000,
];

const WORDS: [u32; 11] = [0, 0, 0, 0, 0, 0, 0, 0, 1, 2, 3];

// The copy's mark, and a begin right behind it.
fn marks(alloc: Global) -> Result<List<Mark>, NoMemory> {
    let mut marks = List::new(alloc);
    marks.push(Mark {
        at: 3,
        kind: MarkKind::Copy,
        site: 9,
        task: 0,
    })?;
    marks.push(Mark {
        at: 4,
        kind: MarkKind::Begin,
        site: 2,
        task: 0,
    })?;
    Ok(marks)
}

#[test]
fn a_copy_shows_its_event_with_its_last_word(rt: HostRuntime) -> Result<(), Fail> {
    let bed = Bed::make(rt.alloc(), &CODE, &WORDS, marks(rt.alloc())?)?;
    let mut bed = bed.expect(&rt, "an image");
    assert_eq!(rt; bed.steps(6), Some(Stepped::Ran(None)));
    let copied = Event::Copied(9, 8, 10, 3);
    assert_eq!(rt; bed.step(), Some(Stepped::Ran(Some(copied))));
    assert_eq!(rt; bed.step(), Some(Stepped::Ran(Some(Event::Begin(2)))));
    assert_eq!(rt; bed.step(), Some(Stepped::Halted));
    for (at, word) in [(8, 1), (9, 2), (10, 1), (11, 2), (12, 1)] {
        assert_eq!(rt; bed.machine.word(at), Some(word), "at {at}");
    }
    Ok(())
}

#[test]
fn a_failure_inside_a_transfer_ends_it(rt: HostRuntime) -> Result<(), Fail> {
    // a failure after so many steps, and the words from 10 on
    let table = [
        (4, [3, 0, 0]),
        (5, [1, 0, 0]),
        (6, [1, 2, 0]),
        (7, [1, 2, 1]),
    ];
    for (steps, words) in table {
        let bed = Bed::make(rt.alloc(), &CODE, &WORDS, List::new(rt.alloc()))?;
        let mut bed = bed.expect(&rt, "an image");
        bed.steps(steps);
        bed.machine.fail(77);
        assert_eq!(rt; bed.machine.pc(), 0);
        assert_eq!(rt; bed.machine.register(1), 77);
        assert_eq!(rt; bed.machine.word(1_048_576), Some(77));
        assert_eq!(rt; bed.step(), Some(Stepped::Ran(None)));
        assert_eq!(rt; bed.machine.pc(), 1);
        assert_eq!(rt; bed.machine.register(1), 10);
        for (at, word) in [(10, words[0]), (11, words[1]), (12, words[2])] {
            assert_eq!(rt; bed.machine.word(at), Some(word), "at {at} after {steps}");
        }
        assert_eq!(rt; bed.steps(8), Some(Stepped::Halted));
    }
    Ok(())
}

#[test]
fn a_transfer_that_leaves_the_memory_traps(rt: HostRuntime) -> Result<(), Fail> {
    // LDI r1 65535, LDI r2 0, LDI r3 3, DMA r1 r2 r3: the second word has no place
    let code = [0x0210_ffff, 0x0220_0000, 0x0230_0003, 0x1812_0003];
    let bed = Bed::make(rt.alloc(), &code, &[5, 6, 7], List::new(rt.alloc()))?;
    let mut bed = bed.expect(&rt, "an image");
    assert_eq!(rt; bed.steps(5), Some(Stepped::Ran(None)));
    assert_eq!(rt; bed.step(), Some(Stepped::Trapped(16)));
    assert_eq!(rt; bed.machine.word(65_535), Some(5));
    assert_eq!(rt; bed.machine.word(0), Some(5));
    assert_eq!(rt; bed.machine.pc(), 4);
    Ok(())
}
