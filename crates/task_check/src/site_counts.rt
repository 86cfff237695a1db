//! The sites of a task and the words that its copies may keep, worked out as products, before a loop is unrolled. A count
//! stays at 2 ^ 128 - 1 once it is there.
ghost use Rattle.std.specs.Prelude.{◌≡◌, ◌+◌, ◌*◌};
ghost use Rattle.task_check.specs.Capped.{capped};
ghost use Rattle.task_check.specs.Sites.{body_sites, stmt_sites};
ghost use Rattle.task_check.specs.Table.{Counts, copied};

use crate::around::Surroundings;
use crate::copies::greatest;
use crate::nodes::{plus, times};
use task_ast::Stmt;

/// So many sites, and the words that they may keep.
#[derive(Clone, Copy)]
pub struct SiteCounts {
    pub sites: u128,
    pub kept: u128,
}

/// One site that may keep so many words.
fn one(words: u128) -> SiteCounts
    ensures sites { result.sites ≡ 1 }
    ensures kept { result.kept ≡ words }
{
    SiteCounts {
        sites: 1,
        kept: words,
    }
}

/// Two parts together.
fn both(a: SiteCounts, b: SiteCounts) -> SiteCounts
    ensures sites { result.sites ≡ capped (a.sites + b.sites) }
    ensures kept { result.kept ≡ capped (a.kept + b.kept) }
{
    SiteCounts {
        sites: plus(a.sites, b.sites),
        kept: plus(a.kept, b.kept),
    }
}

/// A part so many times over.
fn repeated(turns: u32, a: SiteCounts) -> SiteCounts
    ensures sites { result.sites ≡ capped (turns * a.sites) }
    ensures kept { result.kept ≡ capped (turns * a.kept) }
{
    let turns = u128::from(turns);
    SiteCounts {
        sites: times(turns, a.sites),
        kept: times(turns, a.kept),
    }
}

/// Those of a statement.
#[cycle(count_sites)]
fn count_stmt(around: &Surroundings, s: &Stmt) -> SiteCounts
    ensures { Counts result (stmt_sites (copied around.now) s.now) }
{
    match s {
        Stmt::Assign(..) | Stmt::Point(..) => SiteCounts { sites: 0, kept: 0 },
        Stmt::If(_, yes_part, no_part) => {
            let first = count_body(around, yes_part.as_slice());
            both(first, count_body(around, no_part.as_slice()))
        }
        Stmt::For(_, turns, _, body, _) => repeated(*turns, count_body(around, body.as_slice())),
        Stmt::Io(..) => one(0),
        Stmt::Block(_, body, _) => both(one(0), count_body(around, body.as_slice())),
        Stmt::Dma(to, from, _, _) => one(greatest(around, to, from) as u128),
    }
}

/// Those of a body.
#[cycle(count_sites)]
pub fn count_body(around: &Surroundings, body: &[Stmt]) -> SiteCounts
    ensures { Counts result (body_sites (copied around.now) body.now) }
{
    let mut total = SiteCounts { sites: 0, kept: 0 };
    for s in body {
        total = both(total, count_stmt(around, s));
    }
    total
}
