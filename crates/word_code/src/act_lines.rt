//! The code of acts: entered at its top, and left only by a jump to what comes next, or into one of its lists.
ghost use Rattle.std.specs.Prelude.{◌≡◌, ◌+◌, ◌≤◌, ◌<◌, ◌++◌, false, true, length, OnOk};
ghost use Rattle.line_code.specs.Expressions.{expr_code};
ghost use Rattle.line_code.specs.Fitting.{IsShort};
ghost use Rattle.line_code.specs.Sizes.{expr_size as condition_size};
ghost use Rattle.word_code.specs.ActCode as spec;
ghost use Rattle.word_code.specs.Fitting.{IsFit, AreFit, IsSiteNumber};
ghost use Rattle.word_code.specs.Frames.{site_at};
ghost use Rattle.word_code.specs.Sizes as sizes;
ghost use Rattle.word_code.specs.Tables.{keeps_code, keeps_size};

use crate::beginnings::{begin, restore, save};
use crate::finding::find;
use crate::frame::{Frame, ends_at};
use crate::heads::{commit, stub_at};
use crate::simple::{drop_record, issue, jump, lock, look, seal, take, transfer, write};
use crate::sizes::{act_size, acts_size};
use crate::tables::{ann_of, branch, class_test, enter, keeps, leave};
use crate::values::value;
use ease_base::NoMemory;
use line_code::{Code, expr_size};
use run_plan::Act;
use task_ast::CoreExpr;
use word_isa::{Instr, MarkKind};

/// What an act goes on with, and whether a copy around it keeps.
#[derive(Clone, Copy)]
pub struct Ahead {
    pub keeps: bool,
    pub next: u32,
}

// From register 1 on to register 2, as many words as register 3 says.
fn words_loop(code: &mut Code, next: u32) -> Result<(), NoMemory>
    requires { length code.old < 4294967000 }
    ensures lines { OnOk result (code.new ≡ code.old ++ spec.loop_code (length code.old) next) }
    ensures count { OnOk result (length code.new ≡ length code.old + 10) }
{
    let top = code.at();
    code.put_all(&[
        Instr::Jz(3, 1),
        Instr::Jmp(top + 3),
        Instr::Jmp(next),
        Instr::Ld(4, 1, 0),
        Instr::St(4, 2, 0),
        Instr::Adi(1, 1),
        Instr::Adi(2, 1),
        Instr::Ldi(5, 1),
        Instr::Sub(3, 5),
        Instr::Jmp(top),
    ])
}

// The words at a copy's destination are kept.
fn keep_words(code: &mut Code, f: &Frame, site: u32, next: u32) -> Result<(), NoMemory>
    requires room { length code.old ≤ 4194304 }
    requires site { IsSiteNumber site }
    ensures lines { OnOk result (code.new ≡ code.old ++ spec.keep_words_code f.now site (length code.old) next) }
    ensures count { OnOk result (length code.new ≡ length code.old + 13) }
{
    code.put_all(&[
        Instr::Ld(1, 15, 40),
        Instr::Ldi(2, f.kept_at(site)),
        Instr::Ld(3, 15, 44),
    ])?;
    words_loop(code, next)
}

// The kept words are put to the destination.
fn put_words(code: &mut Code, f: &Frame, site: u32, next: u32) -> Result<(), NoMemory>
    requires room { length code.old ≤ 4194304 }
    requires site { IsSiteNumber site }
    ensures lines { OnOk result (code.new ≡ code.old ++ spec.put_words_code f.now site (length code.old) next) }
    ensures count { OnOk result (length code.new ≡ length code.old + 14) }
{
    let sign = f.sign(MarkKind::Kept, site);
    code.put(Instr::Ld(3, 0, ends_at(site) + 2))?;
    code.put_marked(sign, Instr::Mov(3, 3))?;
    code.put_all(&[
        Instr::Ldi(1, f.kept_at(site)),
        Instr::Ld(2, 0, ends_at(site)),
    ])?;
    words_loop(code, next)
}

// Where a list of acts is entered: where there is none, that is what comes next.
fn entry(acts: &[Act], at: u32, next: u32) -> u32
    ensures { result ≡ spec.acts_entry acts.now at next }
{
    if acts.is_empty() { next } else { at }
}

// An act without lists that jumps nowhere but to the next act, before that jump.
fn simple(code: &mut Code, f: &Frame, a: &Act) -> Result<(), NoMemory>
    requires room { length code.old + sizes.simple_size f.now a.now ≤ 4194304 }
    requires fit { IsFit f.now a.now }
    ensures lines { OnOk result (code.new ≡ code.old ++ spec.simple_code f.now a.now (length code.old)) }
    ensures count { OnOk result (length code.new ≡ length code.old + sizes.simple_size f.now a.now) }
{
    let body = f.task.body.as_slice();
    match a {
        Act::Begin(t) => begin(code, f, *t),
        Act::Lock(r) => lock(code, *r),
        Act::Plain(s) => code.statement(f.areas, s),
        Act::Value(k) => value(code, f.areas, find(body, *k)),
        Act::Look(k) => look(code, f, *k),
        Act::Drop(k) => drop_record(code, f, *k),
        Act::Issue(k) => issue(code, f, *k, find(body, *k)),
        Act::Seal(k) => seal(code, f, *k, f.site(*k)),
        Act::Take(k) => take(code, f, *k),
        Act::Write(k) => write(code, find(body, *k)),
        Act::Enter(k) => enter(code, ann_of(f.site(*k)), *k),
        Act::Transfer(k, leg) => transfer(code, f, *k, *leg),
        _ => Ok(()),
    }
}

// One write ends the instance, and the next task begins.
fn end_instance(code: &mut Code, f: &Frame, next: u32) -> Result<(), NoMemory>
    requires { next ≤ 64 }
    ensures lines { OnOk result (code.new ≡ code.old ++ spec.ended f.now next) }
    ensures count { OnOk result (length code.new ≡ length code.old + 25) }
{
    commit(code, f, next)?;
    jump(code, stub_at(f.core.tasks.len() as u32, next))
}

// The copies of a region go home, if the task has the region.
fn restore_if(code: &mut Code, f: &Frame, region: u32, next: u32) -> Result<(), NoMemory>
    requires { region ≤ 128 }
    ensures lines { OnOk result (code.new ≡ code.old ++ spec.restored f.now region next) }
    ensures count { OnOk result (length code.new ≡ length code.old + sizes.restored_size f.now region) }
{
    if (region as usize) < f.firsts.len() {
        restore(code, f, region, next)
    } else {
        Ok(())
    }
}

/// The code of an act before what lies ahead.
#[cycle(acts)]
pub fn act(code: &mut Code, f: &Frame, ahead: Ahead, a: &Act) -> Result<(), NoMemory>
    requires room { length code.old + sizes.act_size f.now a.now ≤ 4194304 }
    requires next { ahead.next ≤ 4194304 }
    requires fit { IsFit f.now a.now }
    ensures lines { OnOk result (code.new ≡ code.old ++ spec.act_code f.now ahead.keeps a.now (length code.old) ahead.next) }
    ensures count { OnOk result (length code.new ≡ length code.old + sizes.act_size f.now a.now) }
{
    match a {
        Act::Restore(r) => restore_if(code, f, *r, ahead.next),
        Act::Save(r) => save(code, f, *r, ahead.next),
        Act::Test(c, yes_part, no_part) => {
            test(code, f, ahead, c, yes_part.as_slice(), no_part.as_slice())
        }
        Act::Choose(k, issue_part, keep_part) => choose(
            code,
            f,
            ahead,
            *k,
            issue_part.as_slice(),
            keep_part.as_slice(),
        ),
        Act::Leave(k, part) => leave_block(code, f, ahead, *k, part.as_slice()),
        Act::ByClass(k, single, private, rest) => by_class(
            code,
            f,
            ahead,
            *k,
            single.as_slice(),
            private.as_slice(),
            rest.as_slice(),
        ),
        Act::KeepWords(k) => keep_words(code, f, *k, ahead.next),
        Act::PutWords(k) => put_words(code, f, *k, ahead.next),
        Act::Commit(t) => end_instance(code, f, *t),
        _ => {
            simple(code, f, a)?;
            jump(code, ahead.next)
        }
    }
}

// A condition, and the acts where it isn't 0, and those where it is.
#[cycle(acts)]
fn test(
    code: &mut Code,
    f: &Frame,
    ahead: Ahead,
    c: &CoreExpr,
    yes_part: &[Act],
    no_part: &[Act],
) -> Result<(), NoMemory>
    requires room { length code.old + condition_size c.now + sizes.acts_size f.now yes_part.now + sizes.acts_size f.now no_part.now + 4 ≤ 4194304 }
    requires next { ahead.next ≤ 4194304 }
    requires condition { IsShort 0 c.now }
    requires yes_part { AreFit f.now yes_part.now }
    requires no_part { AreFit f.now no_part.now }
    ensures lines { let yes_at = length code.old + condition_size c.now + 4 in
        let no_at = yes_at + sizes.acts_size f.now yes_part.now in
        OnOk result (code.new ≡ code.old ++ spec.tested (expr_code f.now.areas c.now 0 (length code.old))
        (spec.acts_entry yes_part.now yes_at ahead.next) (spec.acts_entry no_part.now no_at ahead.next)
        (spec.acts_code f.now ahead.keeps yes_part.now yes_at ahead.next) (spec.acts_code f.now ahead.keeps no_part.now no_at ahead.next)) }
    ensures count { OnOk result (length code.new ≡ length code.old + condition_size c.now + sizes.acts_size f.now yes_part.now + sizes.acts_size f.now no_part.now + 4) }
{
    let yes_at = code.at() + expr_size(c) + 4;
    let no_at = yes_at + acts_size(f, yes_part);
    code.expr(f.areas, c, 0)?;
    code.put(Instr::Eq(1, 0))?;
    branch(
        code,
        entry(no_part, no_at, ahead.next),
        entry(yes_part, yes_at, ahead.next),
    )?;
    acts(code, f, ahead, yes_part)?;
    acts(code, f, ahead, no_part)
}

// The acts of a site that issues, and those of one that keeps.
#[cycle(acts)]
fn choose(
    code: &mut Code,
    f: &Frame,
    ahead: Ahead,
    site: u32,
    issue_part: &[Act],
    keep_part: &[Act],
) -> Result<(), NoMemory>
    requires room { length code.old + keeps_size (site_at f.now site) + sizes.acts_size f.now issue_part.now + sizes.acts_size f.now keep_part.now + 3 ≤ 4194304 }
    requires next { ahead.next ≤ 4194304 }
    requires site { IsSiteNumber site }
    requires issue_part { AreFit f.now issue_part.now }
    requires keep_part { AreFit f.now keep_part.now }
    ensures lines { let issue_at = length code.old + keeps_size (site_at f.now site) + 3 in
        let keep_at = issue_at + sizes.acts_size f.now issue_part.now in
        OnOk result (code.new ≡ code.old ++ spec.chosen (keeps_code (site_at f.now site) site)
        (spec.acts_entry keep_part.now keep_at ahead.next) (spec.acts_entry issue_part.now issue_at ahead.next)
        (spec.acts_code f.now false issue_part.now issue_at ahead.next) (spec.acts_code f.now true keep_part.now keep_at ahead.next)) }
    ensures count { OnOk result (length code.new ≡ length code.old + keeps_size (site_at f.now site) + sizes.acts_size f.now issue_part.now + sizes.acts_size f.now keep_part.now + 3) }
{
    let next = ahead.next;
    keeps(code, f.site(site), site)?;
    let issue_at = code.at() + 3;
    let keep_at = issue_at + acts_size(f, issue_part);
    branch(
        code,
        entry(keep_part, keep_at, next),
        entry(issue_part, issue_at, next),
    )?;
    acts(code, f, Ahead { keeps: false, next }, issue_part)?;
    acts(code, f, Ahead { keeps: true, next }, keep_part)
}

// The mode outside is back; then the acts of a block's end where it didn't keep.
#[cycle(acts)]
fn leave_block(
    code: &mut Code,
    f: &Frame,
    ahead: Ahead,
    site: u32,
    part: &[Act],
) -> Result<(), NoMemory>
    requires room { length code.old + sizes.acts_size f.now part.now + 8 ≤ 4194304 }
    requires next { ahead.next ≤ 4194304 }
    requires site { IsSiteNumber site }
    requires part { AreFit f.now part.now }
    ensures lines { OnOk result (code.new ≡ code.old ++ spec.left_code site ahead.next (spec.acts_entry part.now (length code.old + 8) ahead.next)
        (spec.acts_code f.now ahead.keeps part.now (length code.old + 8) ahead.next)) }
    ensures count { OnOk result (length code.new ≡ length code.old + sizes.acts_size f.now part.now + 8) }
{
    let at = code.at() + 8;
    leave(code, site)?;
    branch(code, ahead.next, entry(part, at, ahead.next))?;
    acts(code, f, ahead, part)
}

// The acts of a copy of class Single, of class Private, and of the others.
#[cycle(acts)]
fn by_class(
    code: &mut Code,
    f: &Frame,
    ahead: Ahead,
    site: u32,
    single: &[Act],
    private: &[Act],
    rest: &[Act],
) -> Result<(), NoMemory>
    requires room { length code.old + sizes.acts_size f.now single.now + sizes.acts_size f.now private.now + sizes.acts_size f.now rest.now + 12 ≤ 4194304 }
    requires next { ahead.next ≤ 4194304 }
    requires site { IsSiteNumber site }
    requires single { AreFit f.now single.now }
    requires private { AreFit f.now private.now }
    requires rest { AreFit f.now rest.now }
    ensures lines { let single_at = length code.old + 12 in
        let private_at = single_at + sizes.acts_size f.now single.now in
        let rest_at = private_at + sizes.acts_size f.now private.now in
        OnOk result (code.new ≡ code.old ++ spec.classed ahead.keeps site (length code.old)
        (spec.acts_entry single.now single_at ahead.next) (spec.acts_entry private.now private_at ahead.next) (spec.acts_entry rest.now rest_at ahead.next)
        (spec.acts_code f.now ahead.keeps single.now single_at ahead.next) (spec.acts_code f.now ahead.keeps private.now private_at ahead.next)
        (spec.acts_code f.now ahead.keeps rest.now rest_at ahead.next)) }
    ensures count { OnOk result (length code.new ≡ length code.old + sizes.acts_size f.now single.now + sizes.acts_size f.now private.now + sizes.acts_size f.now rest.now + 12) }
{
    let Ahead { keeps, next } = ahead;
    let at = code.at();
    let single_at = at + 12;
    let private_at = single_at + acts_size(f, single);
    let rest_at = private_at + acts_size(f, private);
    class_test(code, keeps, site, 1, entry(single, single_at, next), at + 6)?;
    class_test(
        code,
        keeps,
        site,
        2,
        entry(private, private_at, next),
        entry(rest, rest_at, next),
    )?;
    acts(code, f, ahead, single)?;
    acts(code, f, ahead, private)?;
    acts(code, f, ahead, rest)
}

/// The code of acts, one after another; the last goes on with what lies ahead.
#[cycle(acts)]
pub fn acts(code: &mut Code, f: &Frame, ahead: Ahead, acts: &[Act]) -> Result<(), NoMemory>
    requires room { length code.old + sizes.acts_size f.now acts.now ≤ 4194304 }
    requires next { ahead.next ≤ 4194304 }
    requires fit { AreFit f.now acts.now }
    ensures lines { OnOk result (code.new ≡ code.old ++ spec.acts_code f.now ahead.keeps acts.now (length code.old) ahead.next) }
    ensures count { OnOk result (length code.new ≡ length code.old + sizes.acts_size f.now acts.now) }
{
    'acts: for (place, a) in acts.iter().enumerate() {
        let behind = code.at() + act_size(f, a);
        let next = entry(&acts[place + 1..], behind, ahead.next);
        act(code, f, Ahead { next, ..ahead }, a)?;
    }
    Ok(())
}
