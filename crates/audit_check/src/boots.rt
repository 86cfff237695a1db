//! The walk of a journal's boots, and how many of its lines go along.
ghost use Rattle.std.specs.Prelude.{◌≡◌, IfOk, OnOk, None, replicate};
ghost use Rattle.task_ast.specs.WellFormed.{IsWellFormed};
ghost use Rattle.audit_check.specs.Booted as spec;
ghost use Rattle.audit_check.specs.Fit.{AreStoresOf, AreTasksOf};

use crate::around::Around;
use crate::journal::ReportBoot;
use crate::walking::{Kept, Stop, Walking};
use devices::Feed;
use ease_base::NoMemory;
use io_annot::Mode;
use std::alloc::Global;
use std::marker::Model;
use task_ast::Core;
use walk_run::Live;

// What is known between two boots: the walk, whether a line behind it no more goes along, and the lines that do so far.
#[derive(Drop)]
struct Booted<'a> {
    walking: Walking<'a>,
    over: bool,
    lines: u64,
}

impl<'a> Model for Booted<'a> {
    ghost use Rattle.audit_check.specs.Booted.{Booted};

    ghost Value = { Booted };

    ghost view = { λ b. record { walking = b.walking; over = b.over; lines = b.lines } };
}

// No record of any site.
fn no_records(alloc: Global) -> Result<Vec<Option<Kept>>, NoMemory>
    ensures { IfOk result (λ records. records.items ≡ replicate 129 None) }
{
    let mut records = Vec::new(alloc);
    'sites: for _site in 0..129usize {
        records.push(None)?;
    }
    Ok(records)
}

// No peripheral was issued.
fn no_issues(alloc: Global) -> Result<Vec<usize>, NoMemory>
    ensures { IfOk result (λ issued. issued.items ≡ replicate 256 0) }
{
    let mut issued = Vec::new(alloc);
    'peripherals: for _number in 0..256usize {
        issued.push(0)?;
    }
    Ok(issued)
}

// The walk before the first boot.
fn unwalked<'a>(alloc: Global, core: &Core, feeds: &'a [Feed]) -> Result<Walking<'a>, NoMemory>
    requires { IsWellFormed core.now }
    ensures { IfOk result (λ w. w ≡ spec.unwalked core.now feeds.now) }
{
    let live = Live::make(alloc, core)?;
    let committed = Live::make(alloc, core)?;
    let records = no_records(alloc)?;
    let issued = no_issues(alloc)?;
    Ok(Walking {
        feeds,
        rest: &[],
        live,
        committed,
        next: 1,
        mode: Mode::Own,
        records,
        issued,
    })
}

impl<'a> Walking<'a> {
    // A boot: attempts go along its events until the walk stops.
    #[tactic(auto, unfolding(crate::specs::Booted::boot_walked))]
    fn boot(
        &mut self,
        alloc: Global,
        tasks: &[Around],
        boot: &'a ReportBoot,
    ) -> Result<(), NoMemory>
        requires { AreStoresOf tasks.now self.old }
        ensures walked { OnOk result (self.new ≡ spec.boot_walked tasks.now boot.now self.old) }
        ensures stores { OnOk result (AreStoresOf tasks.now self.new) }
    {
        self.rest = boot.events.as_slice();
        match self.attempts(alloc, tasks, boot.events.len()) {
            Ok(()) => Ok(()),
            Err(Stop::Parted) => Ok(()),
            Err(Stop::NoMemory) => Err(NoMemory),
        }
    }
}

impl<'a> Booted<'a> {
    // Goes behind a boot: behind a line that doesn't go along none does.
    fn boot(
        &mut self,
        alloc: Global,
        tasks: &[Around],
        boot: &'a ReportBoot,
    ) -> Result<(), NoMemory>
        requires { AreStoresOf tasks.now self.old.walking }
        ensures booted { OnOk result (self.new ≡ spec.booted_by tasks.now self.old boot.now) }
        ensures stores { OnOk result (AreStoresOf tasks.now self.new.walking) }
    {
        if self.over {
            return Ok(());
        }
        self.walking.boot(alloc, tasks, boot)?;
        self.count(boot);
        Ok(())
    }

    // The boot's own line goes along, and its events up to those that are left.
    fn count(&mut self, boot: &ReportBoot)
        ensures { self.new ≡ spec.behind_boot self.old.lines boot.now self.old.walking }
    {
        let left = self.walking.rest.len();
        let events = boot.events.len().saturating_sub(left);
        self.over = left > 0;
        self.lines = self.lines.saturating_add(1).saturating_add(events as u64);
    }

    // Goes behind boots.
    fn pass(
        &mut self,
        alloc: Global,
        tasks: &[Around],
        boots: &'a [ReportBoot],
    ) -> Result<(), NoMemory>
        requires { AreStoresOf tasks.now self.old.walking }
        ensures { OnOk result (self.new ≡ spec.all_walked tasks.now self.old boots.now) }
    {
        'boots: for boot in boots {
            self.boot(alloc, tasks, boot)?;
        }
        Ok(())
    }
}

/// How many first lines of a journal go along the rules, in boots and events; the number stays at its greatest. The tasks are
/// those of the program, in order.
pub fn lines_along(
    alloc: Global,
    tasks: &[Around],
    core: &Core,
    feeds: &[Feed],
    boots: &[ReportBoot],
) -> Result<u64, NoMemory>
    requires well_formed { IsWellFormed core.now }
    requires tasks { AreTasksOf core.now tasks.now }
    ensures { IfOk result (λ lines. lines ≡ (spec.journal_walked tasks.now core.now feeds.now boots.now).lines) }
{
    let walking = unwalked(alloc, core, feeds)?;
    let mut booted = Booted {
        walking,
        over: false,
        lines: 0,
    };
    booted.pass(alloc, tasks, boots)?;
    Ok(booted.lines)
}
