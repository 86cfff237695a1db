//! Values, pointers and copies over the store of the small program, where a[3] = {1, 2, 3}.
use crate::made::sample;
use ease_base::{Boxed, NoMemory};
use std::alloc::Global;
use std::test::Fail;
use task_ast::{CoreEnd, CoreExpr, CoreStmt, CoreTarget, Op2};
use walk_run::Live;

fn store(alloc: Global) -> Result<Live, NoMemory> {
    let c = sample(alloc)?;
    Live::make(alloc, &c)
}

// The element of `a` at an index, or the pointer where there is none.
fn end(index: Option<u32>) -> CoreEnd {
    match index {
        Some(index) => CoreEnd::Cell(0, CoreExpr::Number(index)),
        None => CoreEnd::Pointer(0),
    }
}

// What an expression gives: a word, or 1,000 and the trap's code.
fn given(live: &Live, e: &CoreExpr) -> u32 {
    match live.value(e) {
        Ok(word) => word,
        Err(trap) => trap.code() + 1000,
    }
}

#[test]
fn a_copy_moves_words_in_order_or_traps(rt: HostRuntime) -> Result<(), Fail> {
    for (to, from, words, code, want) in [
        (Some(1), Some(0), 2, 0, [1, 1, 1]),
        (Some(0), Some(1), 2, 0, [2, 3, 3]),
        (Some(2), Some(0), 0, 0, [1, 2, 3]),
        (Some(3), None, 1, 1, [1, 2, 3]),
        (None, Some(3), 1, 3, [1, 2, 3]),
        (Some(0), Some(3), 9, 1, [1, 2, 3]),
        (Some(0), None, 9, 3, [1, 2, 3]),
        (Some(2), Some(0), 2, 4, [1, 2, 3]),
        (Some(0), Some(2), 2, 4, [1, 2, 3]),
        (Some(0), Some(0), 4294967295, 4, [1, 2, 3]),
    ] {
        let mut live = store(rt.alloc())?;
        let ended = match live.copy(&end(to), &end(from), &CoreExpr::Number(words)) {
            Ok(()) => 0,
            Err(trap) => trap.code(),
        };
        assert_eq!(rt; ended, code, "of {words} words");
        for (index, word) in [(0, want[0]), (1, want[1]), (2, want[2])] {
            let element = CoreExpr::Cell(0, Boxed::new(rt.alloc(), CoreExpr::Number(index))?);
            assert_eq!(rt;
                given(&live, &element),
                word,
                "a[{index}] after {words} words"
            );
        }
    }
    Ok(())
}

#[test]
fn a_pointer_is_tested_behind_its_index_and_before_its_place(rt: HostRuntime) -> Result<(), Fail> {
    let alloc = rt.alloc();
    let mut live = store(alloc)?;
    let one = Boxed::new(alloc, CoreExpr::Number(1))?;
    let none = Boxed::new(alloc, CoreExpr::Number(0))?;
    let quotient = CoreExpr::Two(Op2::Div, one, none);
    let trapping = CoreExpr::Through(0, Boxed::new(alloc, quotient)?);
    assert_eq!(rt; given(&live, &trapping), 1002, "an index that traps");
    let far = CoreExpr::Through(0, Boxed::new(alloc, CoreExpr::Number(4294967295))?);
    assert_eq!(rt; given(&live, &far), 1003, "a pointer to nothing");
    let set = live.plain(&CoreStmt::Point(0, 0, CoreExpr::Number(1)));
    assert_eq!(rt; set.is_ok(), true, "a pointer to a[1]");
    assert_eq!(rt; given(&live, &far), 1001, "a place past its array");
    for (index, word) in [(0, 2), (1, 3), (2, 1001)] {
        let through = CoreExpr::Through(0, Boxed::new(alloc, CoreExpr::Number(index))?);
        assert_eq!(rt; given(&live, &through), word, "p[{index}]");
    }
    let put = live.plain(&CoreStmt::Assign(
        CoreTarget::Through(0, CoreExpr::Number(1)),
        CoreExpr::Number(9),
    ));
    assert_eq!(rt; put.is_ok(), true, "p[1] = 9");
    assert_eq!(rt; live.at(0), Some((0, 1)), "where p points");
    let last = CoreExpr::Cell(0, Boxed::new(alloc, CoreExpr::Number(2))?);
    assert_eq!(rt; given(&live, &last), 9, "a[2]");
    Ok(())
}
