//! The walk of copies.
ghost use Rattle.std.specs.Prelude.{◌≡◌, IfOk, length};
ghost use Rattle.devices.specs.Journal.{copies, keeps};
ghost use Rattle.task_attempts.specs.Copies.{shown as shown_of};
ghost use Rattle.audit_check.specs.Journal.{place_of};
ghost use Rattle.audit_check.specs.Records as records;
ghost use Rattle.audit_check.specs.Walked as steps;
ghost use Rattle.audit_check.specs.Walking as spec;
ghost use Rattle.audit_check.specs.Walking.{Gives};

use crate::around::{Around, memory_at};
use crate::journal::ReportPlace;
use crate::ranges::{move_words, put_words, words_at};
use crate::walking::{Kept, Stop, Walking};
use ease_base::{List, NoMemory, Words};
use region_split::{DmaClass, class_of};
use std::alloc::Global;
use task_ast::{CoreEnd, CoreExpr};
use walk_run::{Place, Trap};

/// The two ends of a copy and its length, in words.
#[derive(Clone, Copy)]
pub struct Range {
    pub to: Place,
    pub from: Place,
    pub words: u32,
}

// A place as an event shows it.
fn shown(at: Place) -> ReportPlace
    ensures { place_of result ≡ shown_of at }
{
    ReportPlace::Cell(at.array, at.index)
}

// A copy's record: its class, the place that it went to, and a copy of the words that are kept.
fn kept_copy(
    alloc: Global,
    kept: &Option<Kept>,
) -> Result<Option<(DmaClass, Place, Words)>, NoMemory>
    ensures { IfOk result (λ r. r ≡ records.kept_copy kept.now) }
{
    match kept {
        Some(Kept::Copy(class, to, words)) => {
            let words = List::from_slice(alloc, words.as_slice())?;
            Ok(Some((*class, *to, words)))
        }
        Some(Kept::Reading(_, _)) => Ok(None),
        Some(Kept::Block(_)) => Ok(None),
        None => Ok(None),
    }
}

impl<'a> Walking<'a> {
    // Finds an end of a copy.
    #[tactic(auto, unfolding(crate::specs::Walking::copy_end))]
    fn copy_end(&mut self, end: &CoreEnd) -> Result<Place, Stop>
        ensures { Gives (spec.copy_end end.now self.old) result self.new }
    {
        match self.live.end(end) {
            Ok(at) => Ok(at),
            Err(why) => {
                self.trap(why);
                Err(Stop::Parted)
            }
        }
    }

    // Tests that so many words from a place on are in its array.
    #[tactic(auto, unfolding(crate::specs::Walking::tested))]
    fn test(&mut self, at: Place, words: u32) -> Result<(), Stop>
        ensures { Gives (spec.tested at words self.old) result self.new }
    {
        match self.live.with_room(at, words) {
            Ok(_) => Ok(()),
            Err(why) => {
                self.trap(why);
                Err(Stop::Parted)
            }
        }
    }

    // The words go from the source to the destination.
    #[tactic(auto, unfolding(crate::specs::Walked::words_moved))]
    fn move_range(&mut self, site: u32, range: Range) -> Result<(), Stop>
        ensures { Gives (steps.words_moved site range.to range.from range.words self.old) result self.new }
    {
        self.take_copy(site, shown(range.from), shown(range.to), range.words)?;
        move_words(&mut self.live, range.words, range.to, range.from);
        Ok(())
    }

    // Kept words go to the destination.
    #[tactic(auto, unfolding(crate::specs::Walked::words_brought))]
    fn bring_words(&mut self, site: u32, to: Place, words: &[u32]) -> Result<(), Stop>
        ensures { Gives (steps.words_brought site to words.now self.old) result self.new }
    {
        let Ok(count) = u32::try_from(words.len()) else {
            return Err(Stop::NoMemory);
        };
        self.take_copy(site, ReportPlace::Keep, shown(to), count)?;
        put_words(&mut self.live, to, words, count);
        Ok(())
    }

    // Words that were kept at the destination come back to it.
    #[tactic(auto, unfolding(crate::specs::Walked::copied_again))]
    fn put_back(&mut self, site: u32, to: Place, words: &[u32]) -> Result<(), Stop>
        ensures { Gives (steps.copied_again DmaClass.Single site to words.now self.old) result self.new }
    {
        let Ok(count) = u32::try_from(words.len()) else {
            return Err(Stop::NoMemory);
        };
        self.take_kept(site, count)?;
        put_words(&mut self.live, to, words, count);
        Ok(())
    }

    // A copy of class Single without a record.
    #[tactic(auto, unfolding(crate::specs::Walked::copied_by))]
    fn copy_once(&mut self, alloc: Global, site: u32, range: Range) -> Result<(), Stop>
        ensures { Gives (steps.copied_by DmaClass.Single site range.to range.from range.words self.old) result self.new }
    {
        self.move_range(site, range)?;
        let words = words_at(alloc, &self.live, range.to, range.words)?;
        self.seal(site, Kept::Copy(DmaClass::Single, range.to, words))
    }

    // One of class Private: the source's words are kept, and then go to the destination.
    #[tactic(auto, unfolding(crate::specs::Walked::copied_by))]
    fn copy_kept(&mut self, alloc: Global, site: u32, range: Range) -> Result<(), Stop>
        ensures { Gives (steps.copied_by DmaClass.Private site range.to range.from range.words self.old) result self.new }
    {
        let words = words_at(alloc, &self.live, range.from, range.words)?;
        let kept = List::from_slice(alloc, words.as_slice())?;
        self.take_copy(site, shown(range.from), ReportPlace::Keep, range.words)?;
        self.seal(site, Kept::Copy(DmaClass::Private, range.to, kept))?;
        self.bring_words(site, range.to, words.as_slice())
    }

    // A copy without a record, by its class.
    #[tactic(auto, unfolding(crate::specs::Walked::copied_by))]
    fn copy_by(
        &mut self,
        alloc: Global,
        class: DmaClass,
        site: u32,
        range: Range,
    ) -> Result<(), Stop>
        ensures { Gives (steps.copied_by class site range.to range.from range.words self.old) result self.new }
    {
        match class {
            DmaClass::Single => self.copy_once(alloc, site, range),
            DmaClass::Private => self.copy_kept(alloc, site, range),
            DmaClass::Exclude => self.move_range(site, range),
            DmaClass::Always => self.move_range(site, range),
        }
    }

    // A copy that follows its record.
    #[tactic(auto, unfolding(crate::specs::Walked::copied_again))]
    fn copy_again(
        &mut self,
        class: DmaClass,
        site: u32,
        to: Place,
        words: &[u32],
    ) -> Result<(), Stop>
        ensures { Gives (steps.copied_again class site to words.now self.old) result self.new }
    {
        match class {
            DmaClass::Single => self.put_back(site, to, words),
            DmaClass::Private => self.bring_words(site, to, words),
            DmaClass::Exclude => self.bring_words(site, to, words),
            DmaClass::Always => self.bring_words(site, to, words),
        }
    }

    // The record of a copy's site.
    fn copy_at(
        &self,
        alloc: Global,
        site: u32,
    ) -> Result<Option<(DmaClass, Place, Words)>, NoMemory>
        ensures { IfOk result (λ r. r ≡ records.kept_copy (spec.record_at site self.now.records)) }
    {
        match self.records.get(site as usize) {
            Some(kept) => kept_copy(alloc, kept),
            None => Ok(None),
        }
    }

    // A copy of a range goes by its record, or by its class.
    #[tactic(auto, using(crate::proofs::CopyCode::copied_is))]
    fn copy_range(
        &mut self,
        alloc: Global,
        around: &Around,
        site: u32,
        range: Range,
    ) -> Result<(), Stop>
        ensures { Gives (steps.copied around.now site range.to range.from range.words (spec.record_at site self.old.records) self.old) result self.new }
    {
        match self.copy_at(alloc, site)? {
            Some((class, to, words)) => self.copy_again(class, site, to, words.as_slice()),
            None => {
                let class = class_of(memory_at(around, range.from), memory_at(around, range.to));
                self.copy_by(alloc, class, site, range)
            }
        }
    }

    /// Does a copy.
    #[tactic(auto, unfolding(crate::specs::Walked::copy_walked))]
    pub fn copy(
        &mut self,
        alloc: Global,
        around: &Around,
        site: u32,
        to: &CoreEnd,
        from: &CoreEnd,
        words: &CoreExpr,
    ) -> Result<(), Stop>
        ensures { Gives (steps.copy_walked around.now site to.now from.now words.now self.old) result self.new }
    {
        let to = self.copy_end(to)?;
        let from = self.copy_end(from)?;
        let words = self.word(words)?;
        self.test(to, words)?;
        self.test(from, words)?;
        self.copy_range(alloc, around, site, Range { to, from, words })
    }
}
