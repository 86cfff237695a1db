//! What is known of all sites, event by event.
ghost use Rattle.std.specs.Prelude.{◌≡◌, map, IfOk};
ghost use Rattle.ease_debug.specs.Past.{boots, shows};
ghost use Rattle.ease_debug.specs.Trails as spec;
ghost use Rattle.ease_debug.specs.declared.trail.Trail.{Trail};

use crate::trail::Trail;
use crate::why::Why;
use devices::Event;
use ease_base::NoMemory;
use std::alloc::Global;
use std::marker::Model;

/// Every number of a site.
const SITES: usize = 256;

/// The trails of all sites.
#[derive(Drop)]
pub struct Trails {
    begun: bool,
    slots: Vec<Trail>,
}

impl Model for Trails {
    ghost use Rattle.std.specs.Prelude.{◌≡◌, length};
    ghost use Rattle.ease_debug.specs.Trails.{Slots};

    ghost Value = { Slots };

    ghost view = { λ t. record { begun = t.begun; slots = t.slots.items } };

    ghost invariant = { λ t. length t.slots.items ≡ 256 };
}

impl Trails {
    /// Nothing happened yet.
    pub fn make(alloc: Global) -> Result<Trails, NoMemory>
        ensures { IfOk result (λ t. spec.trails_in t ≡ spec.no_trails) }
    {
        Ok(Trails {
            begun: false,
            slots: vec![in alloc; Trail::untrodden(); SITES]?,
        })
    }

    /// A boot begins.
    pub fn boot(&mut self)
        ensures { spec.trails_in self.new ≡ spec.noted boots (spec.trails_in self.old) }
    {
        self.begun = false;
        roll(&mut self.slots);
    }

    /// The machine shows an event.
    pub fn note(&mut self, event: Event)
        ensures { spec.trails_in self.new ≡ spec.noted (shows event) (spec.trails_in self.old) }
    {
        match event {
            Event::Begin(_) => {
                self.begun = true;
                roll(&mut self.slots);
            }
            Event::Commit(_) => clear(&mut self.slots),
            Event::Look(site, _)
            | Event::Kept(site, _)
            | Event::Dropped(site)
            | Event::Issued(site, _, _, _)
            | Event::Sealed(site)
            | Event::Copied(site, _, _, _) => self.note_at(site, event),
        }
    }

    // The machine shows an event at a site.
    fn note_at(&mut self, site: u8, event: Event)
        ensures { spec.trails_in self.new ≡ spec.noted_at site event (spec.trails_in self.old) }
    {
        let seen = self.slots[site as usize].seen(event);
        self.slots[site as usize] = if self.begun { seen } else { seen.rolled() };
    }

    /// Why the site was last decided as it was.
    pub fn answer(&self, site: u8) -> Why
        ensures { result ≡ ((spec.trails_in self.now).trail site).answer }
    {
        self.slots[site as usize].answer
    }
}

// What was so far was before the attempt, at every site.
fn roll(slots: &mut Vec<Trail>)
    ensures { slots.new.items ≡ map (λ t. spec.rolled t) slots.old.items }
{
    let count = slots.len();
    'slots: for at in 0..count {
        slots[at] = slots[at].rolled();
    }
}

// Nothing happened since the commit, at any site.
fn clear(slots: &mut Vec<Trail>)
    ensures { slots.new.items ≡ map (λ (_ : Trail). spec.untrodden) slots.old.items }
{
    let count = slots.len();
    'slots: for at in 0..count {
        slots[at] = Trail::untrodden();
    }
}
