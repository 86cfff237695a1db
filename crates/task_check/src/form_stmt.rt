//! The checked form of statements: loops with sites are unrolled, and sites are numbered and listed in text order.
ghost use Rattle.std.specs.Prelude.{◌≡◌, ◌+◌, ◌++◌, ◌∷◌, [], IfOk, OnOk, length, map};
ghost use Rattle.std.specs.Option.{option_map};
ghost use Rattle.task_check.specs.CheckedForm.{core_body, core_expr, core_stmts, end_of, setting as set_to, target_of};
ghost use Rattle.task_check.specs.Names.{peripheral_number as number_of};
ghost use Rattle.task_check.specs.Numbering.{all_numbered};
ghost use Rattle.task_check.specs.Sites.{body_sites, stmt_sites};
ghost use Rattle.task_check.specs.Table.{copied, meanings};

use crate::around::Surroundings;
use crate::copies::greatest;
use crate::form_expr::{form_end, form_expr, form_exprs, form_index, form_reading, form_target};
use crate::names::{Names, array_number, array_of, number, peripheral_number, pointer_of};
use crate::places::name_of;
use crate::sites::body_has_sites;
use ease_base::{List, NoMemory};
use std::alloc::Global;
use task_ast::{CoreExpr, CoreStmt, CoreTarget, Expr, Name, Place, Site, Stmt, Target};

/// Puts a site behind the others, and gives its number.
fn add_site(sites: &mut List<Site>, site: Site) -> Result<u32, NoMemory>
    ensures number { IfOk result (λ n. n ≡ length sites.old + 1) }
    ensures added { OnOk result (sites.new ≡ sites.old ++ site ∷ []) }
{
    sites.push(site)?;
    number(sites.len())
}

/// The variable of an unrolled loop is set.
fn setting(variable: u32, turn: u32) -> CoreStmt
    ensures { result ≡ set_to variable turn }
{
    CoreStmt::Assign(
        CoreTarget::Cell(variable, CoreExpr::Number(0)),
        CoreExpr::Number(turn),
    )
}

fn form_assignment(
    alloc: Global,
    names: &Names,
    x: &Target,
    value: &Expr,
) -> Result<CoreStmt, NoMemory>
    ensures { IfOk result (λ c. c ≡ CoreStmt.Assign (target_of (meanings names.now) x.now) (core_expr (meanings names.now) value.now)) }
{
    let target = form_target(alloc, names, x)?;
    Ok(CoreStmt::Assign(target, form_expr(alloc, names, value)?))
}

/// An address that is given to a pointer; nothing where the names don't stand for such.
fn form_point(
    alloc: Global,
    names: &Names,
    p: &Name,
    to: &Place,
    done: &mut List<CoreStmt>,
) -> Result<(), NoMemory>
    ensures { OnOk result (done.new ≡ done.old ++ core_stmts (meanings names.now) (Stmt.Point p.now to.now)) }
{
    let pointer = pointer_of(names.find(p.text.as_slice()));
    let array = array_of(names.find(name_of(to).text.as_slice()));
    match (pointer, array) {
        (Some(pointer), Some(array)) => {
            let index = form_index(alloc, names, to)?;
            done.push(CoreStmt::Point(pointer, array, index))
        }
        (None, None | Some(_)) | (Some(_), None) => Ok(()),
    }
}

fn form_call(
    alloc: Global,
    names: &Names,
    site: u32,
    x: &Option<Target>,
    p: &Name,
    args: &[Expr],
) -> Result<CoreStmt, NoMemory>
    ensures { IfOk result (λ c. c ≡ CoreStmt.Io site (option_map (target_of (meanings names.now)) x.now)
        (number_of (meanings names.now p.now.text)) (map (core_expr (meanings names.now)) args.now)) }
{
    let target = form_reading(alloc, names, x)?;
    let peripheral = peripheral_number(names.find(p.text.as_slice()));
    let args = form_exprs(alloc, names, args)?;
    Ok(CoreStmt::Io(site, target, peripheral, args))
}

fn form_copy(
    alloc: Global,
    names: &Names,
    site: u32,
    to: &Place,
    from: &Place,
    length: &Expr,
) -> Result<CoreStmt, NoMemory>
    ensures { IfOk result (λ c. c ≡ CoreStmt.Copy site (end_of (meanings names.now) to.now)
        (end_of (meanings names.now) from.now) (core_expr (meanings names.now) length.now)) }
{
    let to = form_end(alloc, names, to)?;
    let from = form_end(alloc, names, from)?;
    let length = form_expr(alloc, names, length)?;
    Ok(CoreStmt::Copy(site, to, from, length))
}

/// Puts the checked form of a statement behind `done`, and its sites behind `sites`.
#[cycle(form_stmts)]
fn form_stmt(
    alloc: Global,
    around: &Surroundings,
    s: &Stmt,
    sites: &mut List<Site>,
    done: &mut List<CoreStmt>,
) -> Result<(), NoMemory>
    ensures sites { OnOk result (sites.new ≡ sites.old ++ stmt_sites (copied around.now) s.now) }
    ensures done { OnOk result (done.new ≡ done.old ++ all_numbered (length sites.old + 1) (core_stmts (meanings around.now.names.now) s.now)) }
{
    match s {
        Stmt::Assign(x, value) => done.push(form_assignment(alloc, around.names, x, value)?),
        Stmt::Point(p, to) => form_point(alloc, around.names, p, to, done),
        Stmt::If(c, yes_part, no_part) => {
            let c = form_expr(alloc, around.names, c)?;
            let mut first = List::new(alloc);
            form_body(alloc, around, yes_part.as_slice(), sites, &mut first)?;
            let mut second = List::new(alloc);
            form_body(alloc, around, no_part.as_slice(), sites, &mut second)?;
            done.push(CoreStmt::If(c, first, second))
        }
        Stmt::For(i, turns, _, body, _) => {
            let variable = array_number(around.names.find(i.text.as_slice()));
            if body_has_sites(body.as_slice()) {
                for turn in 0..*turns {
                    done.push(setting(variable, turn))?;
                    form_body(alloc, around, body.as_slice(), sites, done)?;
                }
                return done.push(setting(variable, *turns));
            }
            let mut inside = List::new(alloc);
            form_body(alloc, around, body.as_slice(), sites, &mut inside)?;
            done.push(CoreStmt::Loop(variable, *turns, inside))
        }
        Stmt::Io(x, p, ann, args, _) => {
            let site = add_site(sites, Site::Io(*ann))?;
            done.push(form_call(alloc, around.names, site, x, p, args.as_slice())?)
        }
        Stmt::Block(ann, body, _) => {
            let site = add_site(sites, Site::Block(*ann))?;
            let mut inside = List::new(alloc);
            form_body(alloc, around, body.as_slice(), sites, &mut inside)?;
            done.push(CoreStmt::Block(site, inside))
        }
        Stmt::Dma(to, from, length, _) => {
            let site = add_site(sites, Site::Copy(number(greatest(around, to, from))?))?;
            done.push(form_copy(alloc, around.names, site, to, from, length)?)
        }
    }
}

/// The same for each statement of a body in turn.
#[cycle(form_stmts)]
pub fn form_body(
    alloc: Global,
    around: &Surroundings,
    body: &[Stmt],
    sites: &mut List<Site>,
    done: &mut List<CoreStmt>,
) -> Result<(), NoMemory>
    ensures sites { OnOk result (sites.new ≡ sites.old ++ body_sites (copied around.now) body.now) }
    ensures done { OnOk result (done.new ≡ done.old ++ all_numbered (length sites.old + 1) (core_body (meanings around.now.names.now) body.now)) }
{
    for s in body {
        form_stmt(alloc, around, s, sites, done)?;
    }
    Ok(())
}
