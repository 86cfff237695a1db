//! The edges of the memories, failures, overlapping copies, and copies that leave a memory.
use fram_ram::{Bus, Engine, Memories};
use std::test::Fail;

#[test]
fn each_memory_ends_where_it_ends(rt: HostRuntime) -> Result<(), Fail> {
    let table = [
        (0, Ok(7)),
        (65535, Ok(7)),
        (65536, Err(Bus)),
        (1048575, Err(Bus)),
        (1048576, Ok(7)),
        (1052671, Ok(7)),
        (1052672, Err(Bus)),
        (4294967295, Err(Bus)),
    ];
    for (at, answer) in table {
        let mut memories = Memories::make(rt.alloc(), &[])?;
        assert_eq!(rt; memories.load(at), answer.map(|_word| 0), "at {at}");
        assert_eq!(rt; memories.store(at, 7), answer.map(|_word| ()), "at {at}");
        assert_eq!(rt; memories.load(at), answer, "at {at}");
    }
    Ok(())
}

#[test]
fn a_failure_leaves_the_first_words_and_fills_ram(rt: HostRuntime) -> Result<(), Fail> {
    let mut memories = Memories::make(rt.alloc(), &[5, 4294967295])?;
    memories.fail(9);
    let table = [
        (0, 5),
        (1, 4294967295),
        (2, 0),
        (65535, 0),
        (1048576, 9),
        (1052671, 9),
    ];
    for (at, word) in table {
        assert_eq!(rt; memories.load(at), Ok(word), "at {at}");
    }
    Ok(())
}

fn move_all(engine: &mut Engine, memories: &mut Memories) -> Result<(), Bus> {
    for _ in 0..engine.left() {
        if engine.left() > 0 {
            engine.move_one(memories)?;
        }
    }
    Ok(())
}

#[test]
fn overlapping_ranges_smear_upwards_and_shift_downwards(rt: HostRuntime) -> Result<(), Fail> {
    let table = [
        (1, 0, 5, [1, 1, 1, 1, 1, 1]),
        (0, 1, 5, [2, 3, 4, 5, 6, 6]),
        (2, 0, 3, [1, 2, 1, 2, 1, 6]),
        (3, 3, 3, [1, 2, 3, 4, 5, 6]),
        (4, 0, 0, [1, 2, 3, 4, 5, 6]),
    ];
    for (to, from, n, words) in table {
        let mut memories = Memories::make(rt.alloc(), &[1, 2, 3, 4, 5, 6])?;
        let mut engine = Engine::new();
        engine.start(to, from, n);
        assert_eq!(rt; engine.length(), n);
        assert_eq!(rt; move_all(&mut engine, &mut memories), Ok(()));
        assert_eq!(rt; engine.left(), 0);
        let mut at = 0;
        for word in words {
            assert_eq!(rt;
                memories.load(at),
                Ok(word),
                "at {at} after {n} from {from} to {to}"
            );
            at = at.saturating_add(1);
        }
    }
    Ok(())
}

#[test]
fn a_copy_that_leaves_a_memory_moves_the_words_before(rt: HostRuntime) -> Result<(), Fail> {
    let table = [
        (1048576, 65534, 3, 0),
        (65534, 0, 9, 5),
        (1052670, 0, 3, 5),
        (0, 4294967295, 2, 5),
        (4294967295, 0, 2, 0),
    ];
    for (to, from, n, word) in table {
        let mut memories = Memories::make(rt.alloc(), &[4, 5, 6])?;
        let mut engine = Engine::new();
        engine.start(to, from, n);
        assert_eq!(rt; engine.source(), from);
        assert_eq!(rt; engine.destination(), to);
        assert_eq!(rt; move_all(&mut engine, &mut memories), Err(Bus));
        assert_eq!(rt; engine.left(), 0);
        let second = memories.load(to.saturating_add(1)).unwrap_or(0);
        assert_eq!(rt; second, word, "from {from} to {to}");
        assert_eq!(rt;
            memories.load(0),
            Ok(4),
            "the low words don't follow the highest address"
        );
    }
    Ok(())
}

#[test]
fn a_stopped_engine_has_no_words_left(rt: HostRuntime) {
    let mut engine = Engine::new();
    engine.start(4, 8, 3);
    assert_eq!(rt; engine.left(), 3);
    engine.stop();
    assert_eq!(rt; engine.left(), 0);
    assert_eq!(rt; engine.length(), 0);
}
