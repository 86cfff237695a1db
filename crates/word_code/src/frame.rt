//! What the code of a task's acts goes by, and the cells of its sites (docs/CODE.md, "Memory").
ghost use Rattle.std.specs.Prelude.{◌≡◌, ◌+◌, ◌≤◌, ◌<◌, sum_by};
ghost use Rattle.task_ast.specs.WellFormed.{site_words};
ghost use Rattle.word_code.specs.Fitting.{IsSiteNumber};
ghost use Rattle.word_code.specs.Frames as spec;

use ease_base::Words;
use line_code::{Placed, Sign};
use std::marker::Model;
use task_ast::{Core, CoreTask, Site};
use word_isa::{MarkKind, Scheme};

/// The program and where its arrays lie, a task with its number, the scheme, and for each region of the task the arrays that
/// it may write first.
#[derive(Drop)]
pub struct Frame<'a> {
    pub core: &'a Core,
    pub areas: &'a [Placed],
    pub task: &'a CoreTask,
    pub number: u8,
    pub scheme: Scheme,
    pub firsts: &'a [Words],
}

impl<'a> Model for Frame<'a> {
    ghost use Rattle.word_code.specs.Frames.{Frame as Held};
    ghost use Rattle.word_code.specs.Fitting.{IsFrame};
    ghost use Rattle.task_ast.specs.contracts.core_form.CoreExpr as exprs;
    ghost use Rattle.task_ast.specs.contracts.core_form.CoreStmt as stmts;
    ghost use Rattle.task_ast.specs.contracts.core_form.CoreExit as exits;
    ghost use Rattle.std.specs.Coded.{codes};

    ghost Value = { Held };

    ghost coded = { Prim.hlevel (codes, exprs.the_row.coded, stmts.the_row.coded, exits.the_row.coded) };

    ghost view = { λ f. record { core = f.core.now; areas = f.areas.now; task = f.task.now; number = f.number; scheme = f.scheme; firsts = f.firsts.now } };

    ghost invariant = { λ f. IsFrame (record { core = f.core.now; areas = f.areas.now; task = f.task.now; number = f.number; scheme = f.scheme; firsts = f.firsts.now }) };
}

impl<'a> Frame<'a> {
    /// How far the second bank lies above the first.
    pub fn stride(&self) -> u16
        ensures { result ≡ spec.stride self.now.scheme }
    {
        match self.scheme {
            Scheme::Undo => 0,
            Scheme::Bank => 2048,
        }
    }

    /// What stands at a site.
    pub fn site(&self, site: u32) -> Option<Site>
        requires { IsSiteNumber site }
        ensures { result ≡ spec.site_at self.now site }
    {
        self.task.sites.get(site as usize - 1).copied()
    }

    /// The mark of a site of the task.
    pub fn sign(&self, kind: MarkKind, site: u32) -> Sign
        requires { site < 256 }
        ensures { result ≡ spec.sign self.now kind site }
    {
        Sign {
            kind,
            site: site as u8,
            task: self.number,
        }
    }
}

impl<'a> Frame<'a> {
    /// The first of a copy's kept words, behind those of the task's earlier copies.
    pub fn kept_at(&self, site: u32) -> u16
        requires { IsSiteNumber site }
        ensures { result ≡ spec.kept_at self.now site }
    {
        let sites = self.task.sites.as_slice();
        let earlier = (site as usize - 1).min(sites.len());
        7042 + kept_in(&sites[..earlier])
    }
}

/// The words that these sites keep.
pub fn kept_in(sites: &[Site]) -> u16
    requires { sum_by site_words sites.now ≤ 16384 }
    ensures { result ≡ sum_by site_words sites.now }
{
    let mut words = 0;
    'sites: for site in sites {
        words += kept_words(*site);
    }
    words
}

// The words that a site keeps, which only a copy does.
fn kept_words(site: Site) -> u16
    requires { site_words site < 65536 }
    ensures { result ≡ site_words site }
{
    match site {
        Site::Io(_) | Site::Block(_) => 0,
        Site::Copy(words) => words as u16,
    }
}

/// The cell of a site's flag, in FRAM.
pub fn flag_at(site: u32) -> u16
    requires { site ≤ 128 }
    ensures { result ≡ spec.flag_at site }
{
    6273 + site as u16
}

/// The cell of a record's stamp.
pub fn stamp_at(site: u32) -> u16
    requires { site ≤ 128 }
    ensures { result ≡ spec.stamp_at site }
{
    6401 + site as u16
}

/// The cell of a record's value, or of a copy's class.
pub fn value_at(site: u32) -> u16
    requires { site ≤ 128 }
    ensures { result ≡ spec.value_at site }
{
    6529 + site as u16
}

/// The first of the three cells of a copy's record: destination, source and length.
pub fn ends_at(site: u32) -> u16
    requires { site ≤ 128 }
    ensures { result ≡ spec.ends_at site }
{
    6655 + 3 * site as u16
}

/// The cell of a region's lock.
pub fn lock_at(region: u32) -> u16
    requires { region ≤ 128 }
    ensures { result ≡ spec.lock_at region }
{
    6145 + region as u16
}

/// The cell of the mode around a block, in RAM.
pub fn outer_at(site: u32) -> u16
    requires { site ≤ 128 }
    ensures { result ≡ spec.outer_at site }
{
    63 + site as u16
}

/// The cell of the time of a block's beginning.
pub fn begun_at(site: u32) -> u16
    requires { site ≤ 128 }
    ensures { result ≡ spec.begun_at site }
{
    191 + site as u16
}
