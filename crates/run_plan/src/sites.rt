//! What a task's acts ask of its sites: whether a statement has some, and which region a copy begins.
ghost use Rattle.std.specs.Prelude.{◌≡◌, ◌≢◌, ◌↔◌, [], min, take, IsTrue};
ghost use Rattle.task_ast.specs.CoreSites.{site_numbers, all_numbers};
ghost use Rattle.region_split.specs.Regions.{is_copy as is_copy_site, copies};
ghost use Rattle.run_plan.specs.Told.{some};

use task_ast::{CoreStmt, Site};

/// Whether a statement has sites.
#[cycle(has_sites)]
pub fn has_sites(s: &CoreStmt) -> bool
    ensures { result ≡ some (site_numbers s.now) }
{
    match s {
        CoreStmt::Assign(_, _) | CoreStmt::Point(_, _, _) => false,
        CoreStmt::If(_, yes_part, no_part) => {
            body_has_sites(yes_part.as_slice()) || body_has_sites(no_part.as_slice())
        }
        CoreStmt::Loop(_, _, body) => body_has_sites(body.as_slice()),
        CoreStmt::Io(_, _, _, _) | CoreStmt::Block(_, _) | CoreStmt::Copy(_, _, _, _) => true,
    }
}

// Whether one of the statements has sites.
#[cycle(has_sites)]
fn body_has_sites(body: &[CoreStmt]) -> bool
    ensures { result ≡ some (all_numbers body.now) }
{
    'statements: for s in body {
        if has_sites(s) {
            return true;
        }
    }
    false
}

// Whether a copy stands at a site.
fn is_copy(site: &Site) -> bool
    ensures { result ≡ is_copy_site site.now }
{
    match site {
        Site::Copy(_) => true,
        Site::Io(_) | Site::Block(_) => false,
    }
}

// How many copies there are, as far as a word goes.
fn count_copies(sites: &[Site]) -> u32
    ensures { result ≡ min (copies sites.now) 4294967295 }
{
    let mut count: u32 = 0;
    'sites: for site in sites {
        if is_copy(site) {
            count = count.saturating_add(1);
        }
    }
    count
}

/// How many copies stand at the first sites.
pub fn copies_up_to(sites: &[Site], site: u32) -> u32
    ensures { result ≡ min (copies (take site sites.now)) 4294967295 }
{
    if (site as usize) < sites.len() {
        let (before, _) = sites.split_at(site as usize);
        return count_copies(before);
    }
    count_copies(sites)
}
