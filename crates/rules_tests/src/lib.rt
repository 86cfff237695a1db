//! Records and modes as a task's attempt uses them, with memory at hand.
#![tactic(auto)]

use block_scope::{Scopes, enter};
use io_annot::{Choice, Mode, Records, decide};
use std::test::Fail;
use task_ast::Ann;

#[test]
fn a_site_keeps_what_was_sealed_and_issues_what_was_removed(rt: HostRuntime) -> Result<(), Fail> {
    let mut records = Records::make(rt.alloc(), 2)?;
    assert!(rt; records.get(1).is_none() && records.get(2).is_none());
    records.seal(2, 20, 7);
    assert!(rt; records.get(1).is_none() && records.get(2) == Some((20, 7)));
    assert!(rt; decide(Mode::Own, Ann::Timely(5), records.get(2), 12) == Choice::Keep(20));
    assert!(rt; decide(Mode::Own, Ann::Timely(4), records.get(2), 12) == Choice::Issue);
    records.seal(1, 9, 12);
    records.remove(2);
    assert!(rt; records.get(1) == Some((9, 12)) && records.get(2).is_none());
    Ok(())
}

#[test]
fn inside_a_block_that_was_done_its_sites_keep(rt: HostRuntime) -> Result<(), Fail> {
    let mut scopes = Scopes::make(rt.alloc())?;
    assert!(rt; scopes.now() == Mode::Own);
    scopes.push(enter(scopes.now(), Ann::Single, Some(3), 9));
    assert!(rt; scopes.now() == Mode::Keep);
    assert!(rt; decide(scopes.now(), Ann::Always, Some((20, 4)), 10) == Choice::Keep(20));
    scopes.push(enter(scopes.now(), Ann::Always, None, 11));
    assert!(rt; scopes.now() == Mode::Keep);
    scopes.pop();
    scopes.pop();
    assert!(rt; scopes.now() == Mode::Own);
    scopes.push(enter(scopes.now(), Ann::Always, Some(3), 9));
    assert!(rt; decide(scopes.now(), Ann::Single, Some((20, 4)), 10) == Choice::Issue);
    Ok(())
}
