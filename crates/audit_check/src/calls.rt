//! The walk of calls and of blocks' ends.
ghost use Rattle.std.specs.Prelude.{◌≡◌, [], length};
ghost use Rattle.io_depend.specs.Told.{tells_later};
ghost use Rattle.audit_check.specs.Walked as steps;
ghost use Rattle.audit_check.specs.Walking as spec;
ghost use Rattle.audit_check.specs.Walking.{Gives};

use crate::around::{Around, annotation_at, decide_at, enter_at, number_at};
use crate::walking::{Kept, Stop, Walking};
use ease_base::{List, Words};
use io_annot::{Choice, Mode};
use std::alloc::Global;
use task_ast::{CoreExpr, CoreTarget};
use walk_run::Place;

// The value and the time of a reading's record.
fn kept_reading(kept: &Option<Kept>) -> Option<(u32, u32)>
    ensures { result ≡ steps.kept_reading kept.now }
{
    match kept {
        Some(Kept::Reading(value, stamp)) => Some((*value, *stamp)),
        Some(Kept::Block(_)) => None,
        Some(Kept::Copy(_, _, _)) => None,
        None => None,
    }
}

// The time of a block's record.
fn kept_stamp(kept: &Option<Kept>) -> Option<u32>
    ensures { result ≡ steps.kept_stamp kept.now }
{
    match kept {
        Some(Kept::Block(stamp)) => Some(*stamp),
        Some(Kept::Reading(_, _)) => None,
        Some(Kept::Copy(_, _, _)) => None,
        None => None,
    }
}

impl<'a> Walking<'a> {
    /// Values a word.
    #[tactic(auto, unfolding(crate::specs::Walking::word))]
    pub fn word(&mut self, e: &CoreExpr) -> Result<u32, Stop>
        ensures { Gives (spec.word e.now self.old) result self.new }
    {
        match self.live.value(e) {
            Ok(word) => Ok(word),
            Err(why) => {
                self.trap(why);
                Err(Stop::Parted)
            }
        }
    }

    /// Values words from left to right.
    pub fn words(&mut self, alloc: Global, es: &[CoreExpr]) -> Result<Words, Stop>
        ensures { Gives (spec.words_behind [] es.now self.old) result self.new }
    {
        let mut words = List::new(alloc);
        'words: for e in es {
            let word = self.word(e)?;
            words.push(word)?;
        }
        Ok(words)
    }

    /// Finds the target of a reading, where a call has one.
    #[tactic(auto, unfolding(crate::specs::Walking::reading_target))]
    pub fn reading_target(&mut self, onto: &Option<CoreTarget>) -> Result<Option<Place>, Stop>
        ensures { Gives (spec.reading_target onto.now self.old) result self.new }
    {
        match onto {
            None => Ok(None),
            Some(target) => match self.live.target(target) {
                Ok(at) => Ok(Some(at)),
                Err(why) => {
                    self.trap(why);
                    Err(Stop::Parted)
                }
            },
        }
    }

    /// Writes a word where its place is there.
    pub fn put_at(&mut self, at: Place, word: u32)
        ensures { self.new ≡ spec.put_at at word self.old }
    {
        if at.index < self.live.room(at.array) {
            self.live.set(at.array, at.index, word);
        }
    }

    /// A reading goes to its target.
    #[tactic(auto, unfolding(crate::specs::Walking::put_reading))]
    pub fn put_reading(&mut self, at: Option<Place>, word: u32)
        ensures { self.new ≡ spec.put_reading at word self.old }
    {
        match at {
            None => {}
            Some(at) => self.put_at(at, word),
        }
    }

    /// Drops a record, where that is asked for.
    #[tactic(auto, unfolding(crate::specs::Walking::dropped_if))]
    pub fn drop_if(&mut self, wanted: bool, site: u32) -> Result<(), Stop>
        ensures { Gives (spec.dropped_if wanted site self.old) result self.new }
    {
        if wanted {
            self.drop_record(site)
        } else {
            Ok(())
        }
    }

    // The value and the time of a site's reading.
    fn reading_at(&self, site: u32) -> Option<(u32, u32)>
        ensures { result ≡ steps.kept_reading (spec.record_at site self.now.records) }
    {
        match self.records.get(site as usize) {
            Some(kept) => kept_reading(kept),
            None => None,
        }
    }

    // The time of a block's record.
    fn stamp_at(&self, site: u32) -> Option<u32>
        ensures { result ≡ steps.kept_stamp (spec.record_at site self.now.records) }
    {
        match self.records.get(site as usize) {
            Some(kept) => kept_stamp(kept),
            None => None,
        }
    }

    /// What a site does behind its look.
    pub fn choice(&self, around: &Around, site: u32, t: u32) -> Choice
        ensures { result ≡ steps.choice_of around.now site t self.now }
    {
        decide_at(
            self.mode,
            annotation_at(around, site),
            self.reading_at(site),
            t,
        )
    }

    /// The mode inside a block that looks at a time.
    pub fn inside(&self, around: &Around, site: u32, t: u32) -> Mode
        ensures { result ≡ steps.inside_of around.now site t self.now }
    {
        enter_at(
            self.mode,
            annotation_at(around, site),
            self.stamp_at(site),
            t,
        )
    }

    // The sites that depend on a site drop their records, one after another. No task has so many sites that they can't be
    // counted.
    #[tactic(auto, using(crate::proofs::WalkLemmas::drops_step))]
    fn drop_dependents(&mut self, around: &Around, site: u32) -> Result<(), Stop>
        ensures { Gives (spec.dropped_from (tells_later around.now.depends.now site) 1 (length around.now.task.now.sites) self.old) result self.new }
    {
        let Ok(sites) = u32::try_from(around.task.sites.len()) else {
            return Err(Stop::NoMemory);
        };
        'sites: for before in 0..sites {
            let wanted = around.depends.later(site, before + 1);
            self.drop_if(wanted, before + 1)?;
        }
        Ok(())
    }

    // A site and its dependents drop their records; it is issued, and its record sealed.
    #[tactic(auto, unfolding(crate::specs::Walked::issued_anew))]
    fn issue_anew(
        &mut self,
        around: &Around,
        site: u32,
        p: u32,
        args: &[u32],
        t: u32,
    ) -> Result<u32, Stop>
        ensures { Gives (steps.issued_anew around.now site p args.now t self.old) result self.new }
    {
        self.drop_record(site)?;
        self.drop_dependents(around, site)?;
        let reading = self.issue(site, p, args)?;
        self.seal(site, Kept::Reading(reading, t))?;
        Ok(reading)
    }

    // It keeps a value, or issues.
    #[tactic(auto, unfolding(crate::specs::Walked::read_by))]
    fn read_by(
        &mut self,
        around: &Around,
        site: u32,
        p: u32,
        args: &[u32],
        t: u32,
        choice: Choice,
    ) -> Result<u32, Stop>
        ensures { Gives (steps.read_by around.now site p args.now t choice self.old) result self.new }
    {
        match choice {
            Choice::Keep(value) => {
                self.take_kept(site, value)?;
                Ok(value)
            }
            Choice::Issue => self.issue_anew(around, site, p, args, t),
        }
    }

    /// Does a call.
    #[tactic(auto, unfolding(crate::specs::Walked::call_walked))]
    pub fn call(
        &mut self,
        alloc: Global,
        around: &Around,
        site: u32,
        onto: &Option<CoreTarget>,
        p: u32,
        args: &[CoreExpr],
    ) -> Result<(), Stop>
        ensures { Gives (steps.call_walked around.now site onto.now p args.now self.old) result self.new }
    {
        let at = self.reading_target(onto)?;
        let words = self.words(alloc, args)?;
        let t = self.look(site)?;
        let choice = self.choice(around, site, t);
        let reading = self.read_by(
            around,
            site,
            number_at(around, p),
            words.as_slice(),
            t,
            choice,
        )?;
        self.put_reading(at, reading);
        Ok(())
    }

    // Seals a block that didn't keep.
    #[tactic(auto, unfolding(crate::specs::Walked::block_sealed))]
    fn seal_block(&mut self, site: u32, t: u32, inside: Mode) -> Result<(), Stop>
        ensures { Gives (steps.block_sealed site t inside self.old) result self.new }
    {
        match inside {
            Mode::Keep => Ok(()),
            Mode::Own | Mode::Force => {
                self.drop_record(site)?;
                self.seal(site, Kept::Block(t))
            }
        }
    }

    /// Ends a block.
    #[tactic(auto, unfolding(crate::specs::Walked::block_ended))]
    pub fn end_block(&mut self, site: u32, t: u32, outside: Mode, inside: Mode) -> Result<(), Stop>
        ensures { Gives (steps.block_ended site t outside inside self.old) result self.new }
    {
        self.seal_block(site, t, inside)?;
        self.mode = outside;
        Ok(())
    }
}
