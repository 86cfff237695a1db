//! The tests of an image's marks.
ghost use Rattle.std.specs.Prelude.{◌≡◌, ◌<◌, IfSome, length};
ghost use Rattle.std.specs.Option.{option_copied};
ghost use Rattle.word_isa.specs.Marks as spec;

use crate::encoding::decode;
use crate::instr::Instr;
use crate::mark::{Mark, MarkKind};

/// The place of the first bad mark, from 0, in an image of this version with this code, whose words all have rows. A mark is
/// bad where it doesn't lie above the mark before it, where no instruction of its kind is at its address, where its site is 0
/// and it is no commit, or where its task isn't one that the version allows.
pub fn first_bad_mark(version: u8, code: &[u32], marks: &[Mark]) -> Option<usize>
    ensures value { result ≡ spec.first_bad_mark version code.now marks.now }
    ensures within { IfSome result (λ at. at < length marks.now) }
{
    'marks: for at in 0..marks.len() {
        if !mark_passes(version, code, &marks[..at], marks[at]) {
            return Some(at);
        }
    }
    None
}

// Whether a mark behind these earlier ones is good.
#[tactic(auto, unfolding(crate::specs::Marks::mark_passes))]
fn mark_passes(version: u8, code: &[u32], earlier: &[Mark], m: Mark) -> bool
    ensures { result ≡ spec.mark_passes version code.now earlier.now m }
{
    if !stands_at(m.kind, code.get(m.at as usize)) {
        return false;
    }
    if !is_above(earlier.last(), m) {
        return false;
    }
    if !site_passes(m.kind, m.site) {
        return false;
    }
    task_passes(version, m.kind, m.site, m.task)
}

// Whether a mark of the kind may stand at the word, if there is one.
fn stands_at(kind: MarkKind, word: Option<&u32>) -> bool
    ensures { result ≡ spec.stands_at kind (option_copied word.entry) }
{
    match word {
        None => false,
        Some(word) => may_stand_at(kind, decode(*word)),
    }
}

fn may_stand_at(kind: MarkKind, i: Option<Instr>) -> bool
    ensures { result ≡ spec.may_stand_at kind i }
{
    match i {
        None => false,
        Some(i) => may_stand(kind, i),
    }
}

// Whether a mark of the kind may stand at the instruction.
fn may_stand(kind: MarkKind, i: Instr) -> bool
    ensures { result ≡ spec.may_stand kind i }
{
    match kind {
        MarkKind::Begin => matches!(i, Instr::Ldi(..)),
        MarkKind::Look => matches!(i, Instr::Time(_)),
        MarkKind::Kept => matches!(i, Instr::Mov(..)),
        MarkKind::Drop | MarkKind::Seal | MarkKind::Commit => matches!(i, Instr::St(..)),
        MarkKind::Issue => matches!(i, Instr::Io(..)),
        MarkKind::Copy => matches!(i, Instr::Dma(..)),
    }
}

// Whether the mark lies above the one before it.
fn is_above(before: Option<&Mark>, m: Mark) -> bool
    ensures { result ≡ spec.is_above (option_copied before.entry) m }
{
    match before {
        None => true,
        Some(before) => before.at < m.at,
    }
}

// Whether the site may be 0, or isn't.
fn site_passes(kind: MarkKind, site: u8) -> bool
    ensures { result ≡ spec.site_passes kind site }
{
    kind == MarkKind::Commit || site != 0
}

// Whether the version allows the mark's task.
fn task_passes(version: u8, kind: MarkKind, site: u8, task: u8) -> bool
    ensures { result ≡ spec.task_passes version kind site task }
{
    if version != 2 {
        return task == 0;
    }
    if task < 1 || task > 64 {
        return false;
    }
    site_fits(kind, site, task)
}

// Whether the site is the begun task, or one of the sites that a task may have.
fn site_fits(kind: MarkKind, site: u8, task: u8) -> bool
    ensures { result ≡ spec.site_fits kind site task }
{
    match kind {
        MarkKind::Begin => site == task,
        MarkKind::Look
        | MarkKind::Kept
        | MarkKind::Drop
        | MarkKind::Issue
        | MarkKind::Seal
        | MarkKind::Copy => site <= 128,
        MarkKind::Commit => true,
    }
}
