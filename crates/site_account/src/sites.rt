//! The lines of a task's sites.
ghost use Rattle.std.specs.Prelude.{◌≡◌, ◌++◌, ◌-◌, OnOk, slice_get};
ghost use Rattle.site_account.specs.Account.{place_text, mark_text, site_front, mark as marked, names, call_line, block_line, copy_line, stmt_lines, body_lines};
ghost use Rattle.site_account.specs.Told.{told};
ghost use Rattle.task_ast.specs.CoreSites.{all_numbers};
ghost use Rattle.task_ast.specs.Pointing.{end_arrays};

use crate::members::{forced_by, members_of};
use crate::parts::{
    peripheral_name, put_ann, put_listed, put_names, put_numbered, put_numbers, put_spaced,
};
use crate::view::View;
use ease_base::{NoMemory, Text, put_number};
use std::alloc::Global;
use task_ast::{CoreEnd, CoreStmt, Site};

// The place of a site as line and column.
fn put_place(view: &View, site: u32, out: &mut Text) -> Result<(), NoMemory>
    ensures { OnOk result (out.new ≡ out.old ++ place_text (slice_get view.now.places.now (site - 1))) }
{
    match view.places.get(site.saturating_sub(1) as usize) {
        Some(place) => {
            put_number(out, u64::from(place.at.line))?;
            out.push(b':')?;
            put_number(out, u64::from(place.at.column))
        }
        None => Ok(()),
    }
}

// The number of a site, and its place.
fn put_front(view: &View, site: u32, out: &mut Text) -> Result<(), NoMemory>
    ensures { OnOk result (out.new ≡ out.old ++ site_front (told view.now) site) }
{
    put_numbered(out, b"site ", u64::from(site))?;
    out.push(b' ')?;
    put_place(view, site, out)
}

// How a site is marked: its annotation, or a copy's greatest length.
fn put_mark(view: &View, site: u32, out: &mut Text) -> Result<(), NoMemory>
    ensures { OnOk result (out.new ≡ out.old ++ marked (told view.now) site) }
{
    match view.task.sites.get(site.saturating_sub(1) as usize) {
        Some(Site::Io(ann)) => put_ann(out, *ann),
        Some(Site::Block(ann)) => put_ann(out, *ann),
        Some(Site::Copy(greatest)) => put_numbered(out, b" greatest ", u64::from(*greatest)),
        None => Ok(()),
    }
}

// The line of a call.
#[tactic(auto, using(std::proofs::Common::append_assoc), unfolding(crate::specs::Account::call_line))]
fn put_call(
    alloc: Global,
    view: &View,
    site: u32,
    peripheral: u32,
    out: &mut Text,
) -> Result<(), NoMemory>
    ensures { OnOk result (out.new ≡ out.old ++ call_line (told view.now) site peripheral) }
{
    let forced = forced_by(alloc, view.depends, view.count, site)?;
    put_front(view, site, out)?;
    out.extend(b" io")?;
    put_spaced(out, peripheral_name(&view.core.peripherals, peripheral))?;
    put_mark(view, site, out)?;
    put_listed(out, b" forces", forced.as_slice())?;
    out.push(b'\n')
}

// The line of a block.
#[tactic(auto, using(std::proofs::Common::append_assoc), unfolding(crate::specs::Account::block_line))]
fn put_block(
    alloc: Global,
    view: &View,
    site: u32,
    body: &[CoreStmt],
    out: &mut Text,
) -> Result<(), NoMemory>
    ensures { OnOk result (out.new ≡ out.old ++ block_line (told view.now) site (all_numbers body.now)) }
{
    let members = members_of(alloc, body)?;
    put_front(view, site, out)?;
    out.extend(b" block")?;
    put_mark(view, site, out)?;
    out.extend(b" members")?;
    put_numbers(out, members.as_slice())?;
    out.push(b'\n')
}

// The arrays that an end of a copy may be in.
fn put_end(view: &View, end: &CoreEnd, out: &mut Text) -> Result<(), NoMemory>
    ensures { OnOk result (out.new ≡ out.old ++ names (told view.now).arrays (end_arrays (told view.now).points end.now)) }
{
    match end {
        CoreEnd::Cell(array, _) => put_names(out, &view.core.arrays, &[*array]),
        CoreEnd::Pointer(pointer) => {
            put_names(out, &view.core.arrays, view.depends.points(*pointer))
        }
    }
}

// The line of a copy.
#[tactic(auto, using(std::proofs::Common::append_assoc), unfolding(crate::specs::Account::copy_line))]
fn put_copy(
    view: &View,
    site: u32,
    to: &CoreEnd,
    from: &CoreEnd,
    out: &mut Text,
) -> Result<(), NoMemory>
    ensures { OnOk result (out.new ≡ out.old ++ copy_line (told view.now) site to.now from.now) }
{
    put_front(view, site, out)?;
    out.extend(b" copy to")?;
    put_end(view, to, out)?;
    out.extend(b" from")?;
    put_end(view, from, out)?;
    put_mark(view, site, out)?;
    out.push(b'\n')
}

// A line for each site of a statement.
#[cycle(put_sites)]
fn put_stmt(alloc: Global, view: &View, s: &CoreStmt, out: &mut Text) -> Result<(), NoMemory>
    ensures { OnOk result (out.new ≡ out.old ++ stmt_lines (told view.now) s.now) }
{
    match s {
        CoreStmt::Assign(_, _) | CoreStmt::Point(_, _, _) => Ok(()),
        CoreStmt::If(_, yes_part, no_part) => {
            put_body(alloc, view, yes_part.as_slice(), out)?;
            put_body(alloc, view, no_part.as_slice(), out)
        }
        CoreStmt::Loop(_, _, body) => put_body(alloc, view, body.as_slice(), out),
        CoreStmt::Io(site, _, peripheral, _) => put_call(alloc, view, *site, *peripheral, out),
        CoreStmt::Block(site, body) => {
            put_block(alloc, view, *site, body.as_slice(), out)?;
            put_body(alloc, view, body.as_slice(), out)
        }
        CoreStmt::Copy(site, to, from, _) => put_copy(view, *site, to, from, out),
    }
}

/// A line for each site of a body.
#[cycle(put_sites)]
pub fn put_body(
    alloc: Global,
    view: &View,
    body: &[CoreStmt],
    out: &mut Text,
) -> Result<(), NoMemory>
    ensures { OnOk result (out.new ≡ out.old ++ body_lines (told view.now) body.now) }
{
    'statements: for s in body {
        put_stmt(alloc, view, s, out)?;
    }
    Ok(())
}
