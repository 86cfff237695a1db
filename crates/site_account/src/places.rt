//! Where the sites of a task stand in the text: the word of each and its place, in the order of their numbers.
ghost use Rattle.std.specs.Prelude.{◌≡◌, [], ◌∷◌, ◌++◌, IfOk, OnOk};
ghost use Rattle.site_account.specs.Places.{standing, stmt_places as places_of, body_places as places_in};
ghost use Rattle.task_check.specs.Sites.{repeated};

use ease_base::{List, NoMemory, Pos};
use std::alloc::Global;
use task_ast::Stmt;

/// The word with which a site begins.
#[derive(Clone, Copy, Debug, PartialEq, Eq)]
pub enum SiteWord {
    /// `IO`
    Io,
    /// `IO_BLOCK`
    Block,
    /// `DMA`
    Dma,
}

/// A site's word and the place of its first byte.
#[derive(Clone, Copy)]
pub struct SitePlace {
    pub word: SiteWord,
    pub at: Pos,
}

/// The places of a body's sites: that of site k is the k-th. A loop's are there once each turn, since it is unrolled.
pub fn site_places(alloc: Global, body: &[Stmt]) -> Result<List<SitePlace>, NoMemory>
    ensures { IfOk result (λ places. places ≡ places_in body.now) }
{
    let mut places = List::new(alloc);
    list_body(alloc, body, &mut places)?;
    Ok(places)
}

// Puts the places of a statement's sites behind the others.
#[cycle(list_places)]
fn list_stmt(alloc: Global, s: &Stmt, places: &mut List<SitePlace>) -> Result<(), NoMemory>
    ensures { OnOk result (places.new ≡ places.old ++ places_of s.now) }
{
    match s {
        Stmt::Assign(_, _) | Stmt::Point(_, _) => Ok(()),
        Stmt::If(_, yes_part, no_part) => {
            list_body(alloc, yes_part.as_slice(), places)?;
            list_body(alloc, no_part.as_slice(), places)
        }
        Stmt::For(_, turns, _, body, _) => {
            let mut turn = List::new(alloc);
            list_body(alloc, body.as_slice(), &mut turn)?;
            repeat(turn.as_slice(), *turns, places)
        }
        Stmt::Io(_, _, _, _, at) => put_place(SiteWord::Io, *at, places),
        Stmt::Block(_, body, at) => {
            put_place(SiteWord::Block, *at, places)?;
            list_body(alloc, body.as_slice(), places)
        }
        Stmt::Dma(_, _, _, at) => put_place(SiteWord::Dma, *at, places),
    }
}

// Puts those of a body's sites behind the others.
#[cycle(list_places)]
fn list_body(alloc: Global, body: &[Stmt], places: &mut List<SitePlace>) -> Result<(), NoMemory>
    ensures { OnOk result (places.new ≡ places.old ++ places_in body.now) }
{
    'statements: for s in body {
        list_stmt(alloc, s, places)?;
    }
    Ok(())
}

fn put_place(word: SiteWord, at: Pos, places: &mut List<SitePlace>) -> Result<(), NoMemory>
    ensures { OnOk result (places.new ≡ places.old ++ standing word at ∷ []) }
{
    places.push(SitePlace { word, at })
}

// Puts the places of a turn behind the others, so many times.
fn repeat(turn: &[SitePlace], turns: u32, places: &mut List<SitePlace>) -> Result<(), NoMemory>
    ensures { OnOk result (places.new ≡ places.old ++ repeated turns turn.now) }
{
    if turn.is_empty() {
        return Ok(());
    }
    'turns: for _ in 0..turns {
        places.extend(turn)?;
    }
    Ok(())
}
