//! The acts of statements and exits.
ghost use Rattle.std.specs.Prelude.{◌≡◌, [], ◌∷◌, ◌++◌, cond, map, IfOk, OnOk};
ghost use Rattle.run_plan.specs.PlanOf.{save_acts, call_acts, block_end_acts, copy_acts, anew_acts, again_acts, statement_acts, body_acts, exit_act};
ghost use Rattle.run_plan.specs.Told.{told, later_told};
ghost use Rattle.run_plan.specs.declared.act.Act.TheVariants as act;

use crate::act::{Act, Leg};
use crate::copies::{copy_expr, copy_stmt};
use crate::sites::{copies_up_to, has_sites};
use ease_base::{List, NoMemory};
use io_depend::Depends;
use std::alloc::Global;
use task_ast::{CoreExit, CoreStmt, Site};
use word_isa::Scheme;

/// What the acts of a task's statements go by: the scheme, the task's sites and how many they are, and which depend on
/// which.
#[derive(Clone, Copy)]
pub struct Surroundings<'a> {
    pub scheme: Scheme,
    pub sites: &'a [Site],
    pub many: u32,
    pub depends: &'a Depends,
}

// One act more.
fn one(alloc: Global, one_act: Act) -> Result<List<Act>, NoMemory>
    ensures { IfOk result (λ acts. acts ≡ one_act ∷ []) }
{
    let mut acts = List::new(alloc);
    acts.push(one_act)?;
    Ok(acts)
}

/// A region is saved and locked, where the scheme does that.
pub fn save(scheme: Scheme, region: u32, acts: &mut List<Act>) -> Result<(), NoMemory>
    ensures { OnOk result (acts.new ≡ acts.old ++ save_acts scheme region) }
{
    match scheme {
        Scheme::Undo => {
            acts.push(Act::Save(region))?;
            acts.push(Act::Lock(region))
        }
        Scheme::Bank => Ok(()),
    }
}

// The record of a site is dropped, if it has to be.
fn drop_if(site: u32, wanted: bool, acts: &mut List<Act>) -> Result<(), NoMemory>
    ensures { OnOk result (acts.new ≡ acts.old ++ cond wanted (act.Drop site ∷ []) []) }
{
    if wanted {
        acts.push(Act::Drop(site))?;
    }
    Ok(())
}

// The records of the sites that depend on a site are dropped.
fn drop_later(around: &Surroundings, site: u32, acts: &mut List<Act>) -> Result<(), NoMemory>
    ensures { OnOk result (acts.new ≡ acts.old ++ map act.Drop (later_told around.now.depends.now around.now.many site)) }
{
    'sites: for index in 0..around.many {
        drop_if(index + 1, around.depends.later(site, index + 1), acts)?;
    }
    Ok(())
}

// The acts of a call.
fn plan_call(
    alloc: Global,
    around: &Surroundings,
    site: u32,
    acts: &mut List<Act>,
) -> Result<(), NoMemory>
    ensures { OnOk result (acts.new ≡ acts.old ++ call_acts (told around.now) site) }
{
    let mut issue = one(alloc, Act::Drop(site))?;
    drop_later(around, site, &mut issue)?;
    issue.push(Act::Issue(site))?;
    issue.push(Act::Seal(site))?;
    let keep = one(alloc, Act::Take(site))?;
    acts.push(Act::Value(site))?;
    acts.push(Act::Look(site))?;
    acts.push(Act::Choose(site, issue, keep))?;
    acts.push(Act::Write(site))
}

// The end of a block: where it didn't keep its record is dropped and sealed.
fn end_block(alloc: Global, site: u32, acts: &mut List<Act>) -> Result<(), NoMemory>
    ensures { OnOk result (acts.new ≡ acts.old ++ act.Leave site (block_end_acts site) ∷ []) }
{
    let mut end = one(alloc, Act::Drop(site))?;
    end.push(Act::Seal(site))?;
    acts.push(Act::Leave(site, end))
}

// A copy without a record, by its class.
fn copy_anew(alloc: Global, site: u32) -> Result<List<Act>, NoMemory>
    ensures { IfOk result (λ acts. acts ≡ anew_acts site) }
{
    let mut single = one(alloc, Act::Transfer(site, Leg::Across))?;
    single.push(Act::KeepWords(site))?;
    single.push(Act::Seal(site))?;
    let mut private = one(alloc, Act::Transfer(site, Leg::ToKept))?;
    private.push(Act::Seal(site))?;
    private.push(Act::Transfer(site, Leg::FromKept))?;
    let rest = one(alloc, Act::Transfer(site, Leg::Across))?;
    one(alloc, Act::ByClass(site, single, private, rest))
}

// A copy with a record, by the record's class.
fn copy_again(alloc: Global, site: u32) -> Result<List<Act>, NoMemory>
    ensures { IfOk result (λ acts. acts ≡ again_acts site) }
{
    let single = one(alloc, Act::PutWords(site))?;
    let private = one(alloc, Act::Transfer(site, Leg::FromKept))?;
    one(alloc, Act::ByClass(site, single, private, List::new(alloc)))
}

// The acts of a copy.
fn plan_copy(
    alloc: Global,
    around: &Surroundings,
    site: u32,
    acts: &mut List<Act>,
) -> Result<(), NoMemory>
    ensures { OnOk result (acts.new ≡ acts.old ++ copy_acts (told around.now) site) }
{
    acts.push(Act::Value(site))?;
    save(around.scheme, copies_up_to(around.sites, site), acts)?;
    let anew = copy_anew(alloc, site)?;
    let again = copy_again(alloc, site)?;
    acts.push(Act::Choose(site, anew, again))
}

#[cycle(plan_stmts)]
fn plan_stmt(
    alloc: Global,
    around: &Surroundings,
    s: &CoreStmt,
    acts: &mut List<Act>,
) -> Result<(), NoMemory>
    ensures { OnOk result (acts.new ≡ acts.old ++ statement_acts (told around.now) s.now) }
{
    match s {
        CoreStmt::Assign(_, _) | CoreStmt::Point(_, _, _) | CoreStmt::Loop(_, _, _) => {
            acts.push(Act::Plain(copy_stmt(alloc, s)?))
        }
        CoreStmt::If(c, yes_part, no_part) => {
            if !has_sites(s) {
                return acts.push(Act::Plain(copy_stmt(alloc, s)?));
            }
            let c = copy_expr(alloc, c)?;
            let mut when_yes = List::new(alloc);
            plan_body(alloc, around, yes_part.as_slice(), &mut when_yes)?;
            let mut when_no = List::new(alloc);
            plan_body(alloc, around, no_part.as_slice(), &mut when_no)?;
            acts.push(Act::Test(c, when_yes, when_no))
        }
        CoreStmt::Io(site, _, _, _) => plan_call(alloc, around, *site, acts),
        CoreStmt::Block(site, body) => {
            acts.push(Act::Look(*site))?;
            acts.push(Act::Enter(*site))?;
            plan_body(alloc, around, body.as_slice(), acts)?;
            end_block(alloc, *site, acts)
        }
        CoreStmt::Copy(site, _, _, _) => plan_copy(alloc, around, *site, acts),
    }
}

/// Puts the acts of statements behind others.
#[cycle(plan_stmts)]
pub fn plan_body(
    alloc: Global,
    around: &Surroundings,
    body: &[CoreStmt],
    acts: &mut List<Act>,
) -> Result<(), NoMemory>
    ensures { OnOk result (acts.new ≡ acts.old ++ body_acts (told around.now) body.now) }
{
    'statements: for s in body {
        plan_stmt(alloc, around, s, acts)?;
    }
    Ok(())
}

/// The act of an exit.
pub fn plan_exit(alloc: Global, exit: &CoreExit) -> Result<Act, NoMemory>
    ensures { IfOk result (λ made. made ≡ exit_act exit.now) }
{
    match exit {
        CoreExit::Next(task) => Ok(Act::Commit(*task)),
        CoreExit::Stop => Ok(Act::Commit(0)),
        CoreExit::Choose(c, first, second) => {
            let c = copy_expr(alloc, c)?;
            let first = plan_exit(alloc, first.get())?;
            let when_yes = one(alloc, first)?;
            let second = plan_exit(alloc, second.get())?;
            let when_no = one(alloc, second)?;
            Ok(Act::Test(c, when_yes, when_no))
        }
    }
}
