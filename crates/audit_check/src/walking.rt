//! The walk of a boot's events beside the rules: what is known between two events, and single events.
ghost use Rattle.std.specs.Prelude.{◌≡◌, ◌<◌, length};
ghost use Rattle.devices.specs.Journal.{begins, keeps, drops, issues, seals, copies, commits, traps};
ghost use Rattle.devices.specs.Reading.{reading, values_in};
ghost use Rattle.devices.specs.Readings.{one_more};
ghost use Rattle.walk_run.specs.Trap.{code_of};
ghost use Rattle.audit_check.specs.Journal.{place_of};
ghost use Rattle.audit_check.specs.Walking as spec;
ghost use Rattle.audit_check.specs.Walking.{Gives};

use crate::journal::{ReportEvent, ReportPlace, TimedEvent};
use crate::same::{is_begin, is_commit, is_copy, is_drop, is_issue, is_kept, is_seal, is_trap};
use devices::Feed;
use ease_base::{List, NoMemory, Words};
use io_annot::Mode;
use region_split::DmaClass;
use std::alloc::Global;
use std::marker::Model;
use walk_run::{Live, Place, Trap};

/// The record of a site.
#[derive(Drop)]
pub enum Kept {
    /// The value of a reading and the time of its look.
    Reading(u32, u32),
    /// The time of a block's look.
    Block(u32),
    /// A copy's class, the place that it went to, and the words that are kept.
    Copy(DmaClass, Place, Words),
}

/// Why a walk stops.
#[derive(Clone, Copy)]
pub enum Stop {
    /// The events end, or the next isn't the one that the rules give.
    Parted,
    NoMemory,
}

impl From<NoMemory> for Stop {
    ghost use Rattle.audit_check.specs.declared.walking.Stop.TheVariants.{NoMemory as no_memory};

    ghost from_gives = { λ _ e. e ≡ no_memory };

    fn from(_error: NoMemory) -> Stop {
        Stop::NoMemory
    }
}

/// What is known between two events.
#[derive(Drop)]
pub struct Walking<'a> {
    pub feeds: &'a [Feed],
    pub rest: &'a [TimedEvent],
    pub live: Live,
    pub committed: Live,
    pub next: u32,
    pub mode: Mode,
    pub records: Vec<Option<Kept>>,
    pub issued: Vec<usize>,
}

impl<'a> Model for Walking<'a> {
    ghost use Rattle.audit_check.specs.Walking.{Walking};

    ghost Value = { Walking };

    ghost view = { λ w. record { feeds = w.feeds.now; rest = w.rest.now; store = w.live; committed = w.committed; next = w.next; mode = w.mode; records = w.records.items; issued = w.issued.items } };
}

/// The readings of a peripheral.
#[tactic(auto, unfolding(devices::specs::Reading::values_in))]
fn values_of<'a>(feeds: &'a [Feed], p: u32) -> &'a [u32]
    ensures { result.now ≡ values_in feeds.now p }
{
    match feeds.split_first() {
        None => &[],
        Some((feed, others)) => {
            if u32::from(feed.number) == p {
                feed.values.as_slice()
            } else {
                values_of(others, p)
            }
        }
    }
}

impl<'a> Walking<'a> {
    /// The next event is the beginning of a task.
    #[tactic(auto, unfolding(crate::specs::Walking::taken))]
    pub fn take_begin(&mut self, task: u32) -> Result<(), Stop>
        ensures { Gives (spec.taken (begins task) self.old) result self.new }
    {
        let Some((x, rest)) = self.rest.split_first() else {
            return Err(Stop::Parted);
        };
        if !is_begin(&x.event, task) {
            return Err(Stop::Parted);
        }
        self.rest = rest;
        Ok(())
    }

    /// The next event keeps a value.
    #[tactic(auto, unfolding(crate::specs::Walking::taken))]
    pub fn take_kept(&mut self, site: u32, value: u32) -> Result<(), Stop>
        ensures { Gives (spec.taken (keeps site value) self.old) result self.new }
    {
        let Some((x, rest)) = self.rest.split_first() else {
            return Err(Stop::Parted);
        };
        if !is_kept(&x.event, site, value) {
            return Err(Stop::Parted);
        }
        self.rest = rest;
        Ok(())
    }

    // The next event drops a record.
    #[tactic(auto, unfolding(crate::specs::Walking::taken))]
    fn take_drop(&mut self, site: u32) -> Result<(), Stop>
        ensures { Gives (spec.taken (drops site) self.old) result self.new }
    {
        let Some((x, rest)) = self.rest.split_first() else {
            return Err(Stop::Parted);
        };
        if !is_drop(&x.event, site) {
            return Err(Stop::Parted);
        }
        self.rest = rest;
        Ok(())
    }

    // The next event seals a record.
    #[tactic(auto, unfolding(crate::specs::Walking::taken))]
    fn take_seal(&mut self, site: u32) -> Result<(), Stop>
        ensures { Gives (spec.taken (seals site) self.old) result self.new }
    {
        let Some((x, rest)) = self.rest.split_first() else {
            return Err(Stop::Parted);
        };
        if !is_seal(&x.event, site) {
            return Err(Stop::Parted);
        }
        self.rest = rest;
        Ok(())
    }

    // The next event issues a peripheral.
    #[tactic(auto, unfolding(crate::specs::Walking::taken))]
    fn take_issue(&mut self, site: u32, p: u32, args: &[u32], reading: u32) -> Result<(), Stop>
        ensures { Gives (spec.taken (issues site p args.now reading) self.old) result self.new }
    {
        let Some((x, rest)) = self.rest.split_first() else {
            return Err(Stop::Parted);
        };
        if !is_issue(&x.event, site, p, args, reading) {
            return Err(Stop::Parted);
        }
        self.rest = rest;
        Ok(())
    }

    /// The next event copies words.
    #[tactic(auto, unfolding(crate::specs::Walking::taken))]
    pub fn take_copy(
        &mut self,
        site: u32,
        from: ReportPlace,
        to: ReportPlace,
        words: u32,
    ) -> Result<(), Stop>
        ensures { Gives (spec.taken (copies site (place_of from) (place_of to) words) self.old) result self.new }
    {
        let Some((x, rest)) = self.rest.split_first() else {
            return Err(Stop::Parted);
        };
        if !is_copy(&x.event, site, from, to, words) {
            return Err(Stop::Parted);
        }
        self.rest = rest;
        Ok(())
    }

    /// The next event is a commit.
    #[tactic(auto, unfolding(crate::specs::Walking::taken))]
    pub fn take_commit(&mut self, next: u32) -> Result<(), Stop>
        ensures { Gives (spec.taken (commits next) self.old) result self.new }
    {
        let Some((x, rest)) = self.rest.split_first() else {
            return Err(Stop::Parted);
        };
        if !is_commit(&x.event, next) {
            return Err(Stop::Parted);
        }
        self.rest = rest;
        Ok(())
    }

    /// The next event is a trap, behind which none comes.
    #[tactic(auto, unfolding(crate::specs::Walking::taken, crate::specs::Walking::trapped_by))]
    pub fn trap(&mut self, why: Trap)
        ensures { self.new ≡ spec.trapped_by why self.old }
    {
        let Some((x, rest)) = self.rest.split_first() else {
            return;
        };
        if is_trap(&x.event, why.code()) {
            self.rest = rest;
        }
    }

    /// The next event is a look of a site, at a time.
    #[tactic(auto, unfolding(crate::specs::Walking::looked))]
    pub fn look(&mut self, site: u32) -> Result<u32, Stop>
        ensures { Gives (spec.looked site self.old) result self.new }
    {
        let Some((x, rest)) = self.rest.split_first() else {
            return Err(Stop::Parted);
        };
        match &x.event {
            ReportEvent::Look(told, time) => {
                if *told != site {
                    return Err(Stop::Parted);
                }
                self.rest = rest;
                Ok(*time)
            }
            _ => Err(Stop::Parted),
        }
    }

    // Sets a site's record, where the site is there.
    fn keep(&mut self, site: u32, kept: Option<Kept>)
        ensures { self.new ≡ spec.with_kept site kept self.old }
    {
        if (site as usize) < self.records.len() {
            self.records[site as usize] = kept;
        }
    }

    /// Drops a record.
    #[tactic(auto, unfolding(crate::specs::Walking::dropped))]
    pub fn drop_record(&mut self, site: u32) -> Result<(), Stop>
        ensures { Gives (spec.dropped site self.old) result self.new }
    {
        self.take_drop(site)?;
        self.keep(site, None);
        Ok(())
    }

    /// Seals a record.
    #[tactic(auto, unfolding(crate::specs::Walking::sealed))]
    pub fn seal(&mut self, site: u32, kept: Kept) -> Result<(), Stop>
        ensures { Gives (spec.sealed site kept self.old) result self.new }
    {
        self.take_seal(site)?;
        self.keep(site, Some(kept));
        Ok(())
    }

    // How often a peripheral was issued, as far as its readings go.
    fn count(&self, p: u32) -> usize
        ensures { result ≡ spec.count_of p self.now }
    {
        match self.issued.get(p as usize) {
            Some(count) => *count,
            None => 0,
        }
    }

    // The next reading of a peripheral.
    #[tactic(auto, unfolding(devices::specs::Reading::reading))]
    fn reading(&self, p: u32) -> u32
        ensures { result ≡ spec.next_reading p self.now }
    {
        let values = values_of(self.feeds, p);
        match values.get(self.count(p)) {
            Some(value) => *value,
            None => values.last().copied().unwrap_or(0),
        }
    }

    // One more issue of a peripheral.
    fn raise(&mut self, p: u32)
        ensures { self.new ≡ spec.with_count p self.old }
    {
        let values = values_of(self.feeds, p).len();
        let count = self.count(p);
        if (p as usize) < self.issued.len() {
            self.issued[p as usize] = if count < values { count + 1 } else { values };
        }
    }

    /// Issues a peripheral, whose next reading is taken.
    #[tactic(auto, unfolding(crate::specs::Walking::issued_now))]
    pub fn issue(&mut self, site: u32, p: u32, args: &[u32]) -> Result<u32, Stop>
        ensures { Gives (spec.issued_now site p args.now self.old) result self.new }
    {
        let reading = self.reading(p);
        self.take_issue(site, p, args, reading)?;
        self.raise(p);
        Ok(reading)
    }
}
