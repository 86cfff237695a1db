//! The records of a task's I/O sites: for each a value and the time of its look, or none.
ghost use Rattle.std.specs.Prelude.{◌≡◌, ◌<◌, ◌≤◌, ℕ, IfOk, length};
ghost use Rattle.io_annot.specs.Records.{records_of, none_kept, with_record, without_record};

use ease_base::NoMemory;
use std::alloc::Global;
use std::marker::Model;

/// A record or none for each site of a task.
#[derive(Drop)]
pub struct Records {
    slots: Vec<Option<(u32, u32)>>,
}

impl Model for Records {
    ghost use Rattle.std.specs.Prelude.{List, Option, ℕ};

    ghost Value = { List (Option (ℕ × ℕ)) };

    ghost view = { λ r. r.slots.items };
}

impl Records {
    /// No record for any of the sites 1 to `sites`.
    pub fn make(alloc: Global, sites: u32) -> Result<Records, NoMemory>
        ensures sites { IfOk result (λ r. length r ≡ sites) }
        ensures none { IfOk result (λ r. records_of r ≡ none_kept) }
    {
        let mut slots = Vec::with_capacity(alloc, sites as usize)?;
        'sites: for _site in 0..sites {
            slots.push(None)?;
        }
        Ok(Records { slots })
    }

    /// The record of site `k`, as value and stamp.
    pub fn get(&self, k: u32) -> Option<(u32, u32)>
        requires { (0 < k) × (k ≤ length self.now) }
        ensures { result ≡ records_of self.now k }
    {
        self.slots[k as usize - 1]
    }

    /// Takes the record of site `k` away, whether or not one is there. No other site's changes.
    pub fn remove(&mut self, k: u32)
        requires { (0 < k) × (k ≤ length self.old) }
        ensures removed { records_of self.new ≡ without_record (records_of self.old) k }
        ensures sites { length self.new ≡ length self.old }
    {
        self.slots[k as usize - 1] = None;
    }

    /// Makes the record of site `k`, in place of one that may be there. No other site's changes.
    pub fn seal(&mut self, k: u32, value: u32, stamp: u32)
        requires { (0 < k) × (k ≤ length self.old) }
        ensures sealed { records_of self.new ≡ with_record (records_of self.old) k value stamp }
        ensures sites { length self.new ≡ length self.old }
    {
        self.slots[k as usize - 1] = Some((value, stamp));
    }
}
