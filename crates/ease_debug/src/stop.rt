//! Where steps end early.
ghost use Rattle.std.specs.Prelude.{◌≡◌, ◌<◌, All, IfOk, slice_index};
ghost use Rattle.ease_debug.specs.Past as past;
ghost use Rattle.ease_debug.specs.Session as session;
ghost use Rattle.ease_debug.specs.Stopping as spec;
ghost use Rattle.word_isa.specs.declared.mark.Mark.{Mark};

use devices::Event;
use ease_base::NoMemory;
use std::alloc::Global;
use word_isa::Mark;
use word_machine::Stepped;

/// The event with which steps end.
#[derive(Clone, Copy, Debug, PartialEq, Eq)]
pub enum Stop {
    Never,
    /// One at this site.
    Site(u8),
    /// One at this site of this task, the task first.
    SiteOf(u8, u8),
}

/// The task of the mark at each code address, 0 where there is no mark. The last mark is written first, so that of two at one
/// address the first would count.
pub fn tasks_of(alloc: Global, code: usize, marks: &[Mark]) -> Result<Vec<u8>, NoMemory>
    requires { All (λ (m : Mark). m.at < code) marks.now }
    ensures { IfOk result (λ tasks. spec.Names tasks.items marks.now) }
{
    let mut tasks = vec![in alloc; 0; code]?;
    let count = marks.len();
    'marks: for done in 0..count {
        let mark = marks[count - 1 - done];
        tasks[mark.at as usize] = mark.task;
    }
    Ok(tasks)
}

/// Whether steps end with one that answers this, before which the counter stood here.
pub fn stops(tasks: &[u8], stop: Stop, at: u32, told: Stepped) -> bool
    ensures { result ≡ spec.stops_by tasks.now stop at told }
{
    match stop {
        Stop::Never => false,
        Stop::Site(site) => comes_from(site, told),
        Stop::SiteOf(task, site) => {
            if !comes_from(site, told) {
                return false;
            }
            task_at(tasks, place_of(told, at)) == task
        }
    }
}

// Whether a step's event is at the site.
fn comes_from(site: u8, told: Stepped) -> bool
    ensures { result ≡ session.comes_from site told }
{
    match told {
        Stepped::Ran(Some(event)) => is_at(site, event),
        Stepped::Ran(None) | Stepped::Halted | Stepped::Trapped(_) => false,
    }
}

// Whether an event is at the site; a begin and a commit are at none.
fn is_at(site: u8, event: Event) -> bool
    ensures { result ≡ session.is_at site (past.site_of event) }
{
    match event {
        Event::Begin(_) | Event::Commit(_) => false,
        Event::Look(at, _)
        | Event::Kept(at, _)
        | Event::Dropped(at)
        | Event::Issued(at, _, _, _)
        | Event::Sealed(at)
        | Event::Copied(at, _, _, _) => at == site,
    }
}

// Where the mark of a step's event stands: a copy of words has its event behind its instruction.
fn place_of(told: Stepped, at: u32) -> u32
    ensures { result ≡ spec.place_by told at }
{
    match told {
        Stepped::Ran(Some(Event::Copied(_, _, _, words))) => {
            if words == 0 {
                return at;
            }
            at.saturating_sub(1)
        }
        Stepped::Ran(_) | Stepped::Halted | Stepped::Trapped(_) => at,
    }
}

// The task of the mark at an address, 0 where there is none.
fn task_at(tasks: &[u8], at: u32) -> u8
    ensures { result ≡ slice_index tasks.now at }
{
    match tasks.get(at as usize) {
        Some(task) => *task,
        None => 0,
    }
}
