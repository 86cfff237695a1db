//! Numbers of sites: the members of a block, and the later sites that a new result forces.
ghost use Rattle.std.specs.Prelude.{◌≡◌, ◌++◌, [], ◌∷◌, cond, IfOk, OnOk};
ghost use Rattle.site_account.specs.Told.{told_later};
ghost use Rattle.task_ast.specs.CoreSites.{site_numbers as numbers_of, all_numbers};

use ease_base::NoMemory;
use io_depend::Depends;
use std::alloc::Global;
use task_ast::CoreStmt;

/// The numbers of the sites in a body, at any depth.
pub fn members_of(alloc: Global, body: &[CoreStmt]) -> Result<Vec<u32>, NoMemory>
    ensures { IfOk result (λ row. row.items ≡ all_numbers body.now) }
{
    let mut row = Vec::new(alloc);
    list_body(body, &mut row)?;
    Ok(row)
}

// Puts the numbers of a statement's sites behind the others.
#[cycle(list_numbers)]
fn list_stmt(s: &CoreStmt, row: &mut Vec<u32>) -> Result<(), NoMemory>
    ensures { OnOk result (row.new.items ≡ row.old.items ++ numbers_of s.now) }
{
    match s {
        CoreStmt::Assign(_, _) | CoreStmt::Point(_, _, _) => Ok(()),
        CoreStmt::If(_, yes_part, no_part) => {
            list_body(yes_part.as_slice(), row)?;
            list_body(no_part.as_slice(), row)
        }
        CoreStmt::Loop(_, _, body) => list_body(body.as_slice(), row),
        CoreStmt::Io(site, _, _, _) => put_one(*site, row),
        CoreStmt::Block(site, body) => {
            put_one(*site, row)?;
            list_body(body.as_slice(), row)
        }
        CoreStmt::Copy(site, _, _, _) => put_one(*site, row),
    }
}

// Puts those of a body's sites behind the others.
#[cycle(list_numbers)]
fn list_body(body: &[CoreStmt], row: &mut Vec<u32>) -> Result<(), NoMemory>
    ensures { OnOk result (row.new.items ≡ row.old.items ++ all_numbers body.now) }
{
    'statements: for s in body {
        list_stmt(s, row)?;
    }
    Ok(())
}

fn put_one(number: u32, row: &mut Vec<u32>) -> Result<(), NoMemory>
    ensures { OnOk result (row.new.items ≡ row.old.items ++ number ∷ []) }
{
    row.push(number)?;
    Ok(())
}

/// The sites, of so many, that are told to depend on a site, ascending.
pub fn forced_by(
    alloc: Global,
    depends: &Depends,
    count: u32,
    site: u32,
) -> Result<Vec<u32>, NoMemory>
    ensures { IfOk result (λ row. row.items ≡ told_later depends.now count site) }
{
    let mut row = Vec::new(alloc);
    'sites: for before in site..count {
        let later = before + 1;
        put_if(later, depends.later(site, later), &mut row)?;
    }
    Ok(row)
}

// Puts a site at the end of a row where it depends.
fn put_if(number: u32, depends: bool, row: &mut Vec<u32>) -> Result<(), NoMemory>
    ensures { OnOk result (row.new.items ≡ row.old.items ++ cond depends (number ∷ []) []) }
{
    if depends {
        row.push(number)?;
    }
    Ok(())
}
