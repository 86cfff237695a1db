//! The boots and the end that lines tell, gathered line by line.
ghost use Rattle.std.specs.Prelude.{◌≡◌, false, [], IfOk, OnOk, option_map};
ghost use Rattle.report_text.specs.Events as texts;
ghost use Rattle.audit_check.specs.Journal.{boots_of, timed_of};
ghost use Rattle.audit_laws.specs.Gathered.{a_boot, an_event, an_end, nothing, event_or_none, item_in, gathered};
ghost use Rattle.audit_gather.specs.Gathering as spec;

use crate::events::event_of;
use audit_check::{ReportBoot, TimedEvent};
use devices::RunEnd;
use ease_base::{List, NoMemory};
use report_text::{LineText, ReportEvent, ReportLine, event_in};
use std::alloc::Global;
use std::marker::Model;
use task_ast::Core;

/// The boots that a report's first lines tell, and the end if they tell it.
#[derive(Drop)]
pub struct Told {
    pub boots: List<ReportBoot>,
    pub ending: Option<(u32, RunEnd)>,
}

// What the lines so far tell.
#[derive(Drop)]
struct Gathering {
    boots: List<ReportBoot>,
    inside: bool,
    begun_at: u32,
    events: List<TimedEvent>,
    number: u32,
    ending: Option<(u32, RunEnd)>,
    over: bool,
}

impl Model for Gathering {
    ghost use Rattle.std.specs.Prelude.{map};
    ghost use Rattle.audit_check.specs.Journal.{boots_of, timed_of};
    ghost use Rattle.audit_gather.specs.Gathering.{Gathering};

    ghost Value = { Gathering };

    ghost view = { λ g. record { boots = boots_of g.boots; inside = g.inside; begun_at = g.begun_at; events = map timed_of g.events; number = g.number; ending = g.ending; over = g.over } };
}

impl Gathering {
    // Puts the open boot behind the others.
    #[tactic(auto, using(crate::proofs::GatherLaws::boots_more))]
    fn close(&mut self, alloc: Global) -> Result<(), NoMemory>
        ensures boots { OnOk result (self.new.boots ≡ spec.boots_so_far self.old) }
        ensures number { OnOk result (self.new.number ≡ self.old.number) }
        ensures ending { OnOk result (self.new.ending ≡ self.old.ending) }
        ensures over { OnOk result (self.new.over ≡ self.old.over) }
        ensures events { OnOk result (self.new.events ≡ []) }
    {
        let events = std::mem::replace(&mut self.events, List::new(alloc));
        if self.inside {
            self.boots.push(ReportBoot {
                begun_at: self.begun_at,
                events,
            })?;
        }
        Ok(())
    }

    // A boot begins.
    fn open(&mut self, alloc: Global, steps: u32) -> Result<(), NoMemory>
        ensures { OnOk result (self.new ≡ spec.opened steps self.old) }
    {
        self.close(alloc)?;
        self.number = self.number.checked_add(1).ok_or(NoMemory)?;
        self.inside = true;
        self.begun_at = steps;
        Ok(())
    }

    // A line tells a boot.
    fn boot(&mut self, alloc: Global, steps: u32, number: u32) -> Result<(), NoMemory>
        ensures { OnOk result (self.new ≡ spec.with_item steps (a_boot number) self.old) }
    {
        if number == self.number {
            self.open(alloc, steps)
        } else {
            self.over = true;
            Ok(())
        }
    }

    // A line tells an event.
    #[tactic(auto, using(crate::proofs::GatherLaws::events_more))]
    fn event(&mut self, alloc: Global, steps: u32, event: ReportEvent) -> Result<(), NoMemory>
        ensures { OnOk result (self.new ≡ spec.with_item steps (an_event (texts.journal_event event)) self.old) }
    {
        if self.inside {
            let event = event_of(alloc, event)?;
            self.events.push(TimedEvent { step: steps, event })?;
        } else {
            self.over = true;
        }
        Ok(())
    }

    // A line tells an event, or nothing.
    fn event_or_none(
        &mut self,
        alloc: Global,
        steps: u32,
        event: Option<ReportEvent>,
    ) -> Result<(), NoMemory>
        ensures { OnOk result (self.new ≡ spec.with_item steps (event_or_none (option_map texts.journal_event event)) self.old) }
    {
        match event {
            None => {
                self.over = true;
                Ok(())
            }
            Some(event) => self.event(alloc, steps, event),
        }
    }

    // By what a line tells.
    fn text<'a>(
        &mut self,
        alloc: Global,
        c: &Core,
        steps: u32,
        text: &LineText<'a>,
    ) -> Result<(), NoMemory>
        ensures { OnOk result (self.new ≡ spec.with_item steps (item_in c.now text.now) self.old) }
    {
        match text {
            LineText::Boot(number) => self.boot(alloc, steps, *number),
            LineText::End(ending) => {
                self.ending = Some((steps, *ending));
                self.over = true;
                Ok(())
            }
            LineText::Begin(_)
            | LineText::Look(_, _)
            | LineText::Kept(_, _)
            | LineText::Drop(_)
            | LineText::Issue(_, _, _, _)
            | LineText::Seal(_)
            | LineText::Copy(_, _, _, _)
            | LineText::Commit(_)
            | LineText::Trap(_) => {
                let event = event_in(c, text);
                self.event_or_none(alloc, steps, event)
            }
        }
    }

    // Goes behind a line.
    fn line<'a>(&mut self, alloc: Global, c: &Core, line: &ReportLine<'a>) -> Result<(), NoMemory>
        ensures { OnOk result (self.new ≡ spec.with_line c.now self.old line.now) }
    {
        if self.over {
            return Ok(());
        }
        self.text(alloc, c, line.steps, &line.text)
    }
}

// Goes behind lines, from the first on.
fn all_lines<'a>(alloc: Global, c: &Core, lines: &[ReportLine<'a>]) -> Result<Gathering, NoMemory>
    ensures { IfOk result (λ g. g ≡ spec.with_lines c.now spec.ungathered lines.now) }
{
    let mut gathering = Gathering {
        boots: List::new(alloc),
        inside: false,
        begun_at: 0,
        events: List::new(alloc),
        number: 1,
        ending: None,
        over: false,
    };
    'lines: for line in lines {
        gathering.line(alloc, c, line)?;
    }
    Ok(gathering)
}

/// The boots and the end that the lines of a report tell, up to the first that doesn't stand in its place.
#[tactic(auto, using(crate::proofs::GatherLaws::gathered_boots, crate::proofs::GatherLaws::gathered_end))]
pub fn gather<'a>(alloc: Global, c: &Core, lines: &[ReportLine<'a>]) -> Result<Told, NoMemory>
    ensures boots { IfOk result (λ t. boots_of t.boots ≡ (gathered c.now false 1 lines.now).boots) }
    ensures ending { IfOk result (λ t. t.ending ≡ (gathered c.now false 1 lines.now).ending) }
{
    let mut gathering = all_lines(alloc, c, lines)?;
    gathering.close(alloc)?;
    Ok(Told {
        boots: gathering.boots,
        ending: gathering.ending,
    })
}
