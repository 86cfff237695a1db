//! The events of instructions, with and without marks.
use crate::bed::Bed;
use devices::{Args, Event};
use ease_base::{List, NoMemory};
use std::alloc::Global;
use std::test::Fail;
use word_isa::{Mark, MarkKind};
use word_machine::Stepped;

const NO_ARGS: Args = Args {
    count: 0,
    a0: 0,
    a1: 0,
    a2: 0,
    a3: 0,
};

// LDI r1 7, TIME r2, MOV r3 r1, ST r3 r0 5, IO r3 r1 256, ST r3 r0 5, DMA r0 r0 r0, ST r3 r0 5, HALT
const CODE: [u32; 9] = [
    0x0210_0007,
    0x1720_0000,
    0x0431_0000,
    0x1330_0005,
    0x1631_0100,
    0x1330_0005,
    0x1800_0000,
    0x1330_0005,
    0x0100_0000,
];

// A mark of each kind at the first eight addresses, with the sites 11 to 18.
fn eight_marks(alloc: Global) -> Result<List<Mark>, NoMemory> {
    let kinds = [
        MarkKind::Begin,
        MarkKind::Look,
        MarkKind::Kept,
        MarkKind::Drop,
        MarkKind::Issue,
        MarkKind::Seal,
        MarkKind::Copy,
        MarkKind::Commit,
    ];
    let mut marks = List::new(alloc);
    for (at, site) in [
        (0, 11),
        (1, 12),
        (2, 13),
        (3, 14),
        (4, 15),
        (5, 16),
        (6, 17),
        (7, 18),
    ] {
        marks.push(Mark {
            at,
            kind: kinds[at as usize],
            site,
            task: 0,
        })?;
    }
    Ok(marks)
}

#[test]
fn marks_of_all_kinds_show_their_events(rt: HostRuntime) -> Result<(), Fail> {
    let marks = eight_marks(rt.alloc())?;
    let bed = Bed::make(rt.alloc(), &CODE, &[], marks)?;
    let mut bed = bed.expect(&rt, "an image");
    let args = Args {
        count: 1,
        a0: 7,
        ..NO_ARGS
    };
    let events = [
        Event::Begin(11),
        Event::Look(12, 1),
        Event::Kept(13, 7),
        Event::Dropped(14),
        Event::Issued(15, 0, args, 20),
        Event::Sealed(16),
        Event::Copied(17, 0, 0, 0),
        Event::Commit(18),
    ];
    for event in events {
        assert_eq!(rt; bed.step(), Some(Stepped::Ran(Some(event))));
    }
    assert_eq!(rt; bed.step(), Some(Stepped::Halted));
    Ok(())
}

#[test]
fn looks_issues_and_copies_come_at_site_0_without_a_mark(rt: HostRuntime) -> Result<(), Fail> {
    let bed = Bed::make(rt.alloc(), &CODE, &[], List::new(rt.alloc()))?;
    let mut bed = bed.expect(&rt, "an image");
    let args = Args {
        count: 1,
        a0: 7,
        ..NO_ARGS
    };
    let events = [
        None,
        Some(Event::Look(0, 1)),
        None,
        None,
        Some(Event::Issued(0, 0, args, 20)),
        None,
        Some(Event::Copied(0, 0, 0, 0)),
        None,
    ];
    for event in events {
        assert_eq!(rt; bed.step(), Some(Stepped::Ran(event)));
    }
    Ok(())
}

#[test]
fn an_issue_shows_its_arguments_as_they_were(rt: HostRuntime) -> Result<(), Fail> {
    // LDI r1 7, LDI r15 8, then: IO r1 r1 with 2 arguments; 4 in r12 to r15; none, of peripheral 7; none behind r15
    let two = Args {
        count: 2,
        a0: 7,
        ..NO_ARGS
    };
    let four = Args {
        count: 4,
        a3: 8,
        ..NO_ARGS
    };
    let table = [
        (0x1611_0200, 0, two, 20),
        (0x161c_0400, 0, four, 20),
        (0x1611_0007, 7, NO_ARGS, 0),
        (0x161f_0000, 0, NO_ARGS, 20),
    ];
    for (word, peripheral, args, reading) in table {
        let code = [0x0210_0007, 0x02f0_0008, word];
        let bed = Bed::make(rt.alloc(), &code, &[], List::new(rt.alloc()))?;
        let mut bed = bed.expect(&rt, "an image");
        let event = Event::Issued(0, peripheral, args, reading);
        assert_eq!(rt; bed.steps(3), Some(Stepped::Ran(Some(event))), "at {word}");
        assert_eq!(rt; bed.machine.register(1), reading, "at {word}");
    }
    Ok(())
}

#[test]
fn a_marked_store_that_traps_shows_no_event(rt: HostRuntime) -> Result<(), Fail> {
    // LDI r1 65535, ST r1 r1 1
    let code = [0x0210_ffff, 0x1311_0001];
    let mut marks = List::new(rt.alloc());
    marks.push(Mark {
        at: 1,
        kind: MarkKind::Seal,
        site: 1,
        task: 0,
    })?;
    let bed = Bed::make(rt.alloc(), &code, &[], marks)?;
    let mut bed = bed.expect(&rt, "an image");
    assert_eq!(rt; bed.steps(2), Some(Stepped::Trapped(16)));
    Ok(())
}
