//! The arrays to which the pointers of a task may point: those whose address is given to them anywhere in it.
ghost use Rattle.std.specs.Prelude.{◌≡◌, ◌<◌, ◌≤◌, [], OnOk, length};
ghost use Rattle.task_ast.specs.WellFormed.{is_turning};
ghost use Rattle.task_check.specs.Table.{held, row, with_address};

use ease_base::NoMemory;
use std::alloc::Global;
use std::marker::Model;

/// The arrays of each pointer, each array once.
#[derive(Drop)]
pub struct Points {
    rows: Vec<Vec<u32>>,
}

impl Model for Points {
    ghost use Rattle.std.specs.Prelude.{ℕ, List, map};

    ghost Value = { List (List ℕ) };

    ghost view = { λ p. map (λ row. row.items) p.rows.items };
}

/// Whether an array is one of these.
pub fn is_among(arrays: &[u32], array: u32) -> bool
    ensures { result ≡ is_turning arrays.now array }
{
    arrays.iter().any(|a| *a == array)
}

impl Points {
    pub fn new(alloc: Global) -> Points
        ensures { result ≡ [] }
    {
        Points {
            rows: Vec::new(alloc),
        }
    }

    /// The arrays to which a pointer may point.
    pub fn arrays(&self, pointer: u32) -> &[u32]
        ensures { result.now ≡ row self.now pointer }
    {
        match self.rows.get(pointer as usize) {
            Some(row) => row.as_slice(),
            None => &[],
        }
    }

    /// Makes so many rows at least.
    fn widen(&mut self, alloc: Global, count: usize) -> Result<(), NoMemory>
        ensures wide { OnOk result (count ≤ length self.new) }
        ensures same { OnOk result (held self.new ≡ held self.old) }
    {
        for _ in 0..count.saturating_sub(self.rows.len()) {
            self.rows.push(Vec::new(alloc))?;
        }
        Ok(())
    }

    /// Puts an array at the end of a row.
    fn put(&mut self, pointer: usize, array: u32) -> Result<(), NoMemory>
        requires { pointer < length self.old }
        ensures { OnOk result (held self.new ≡ with_address (held self.old) pointer array) }
    {
        self.rows[pointer].push(array)?;
        Ok(())
    }

    /// Notes, once, that the address of an array is given to a pointer.
    #[tactic(auto, using(crate::proofs::PointLemmas::held_there))]
    pub fn add(&mut self, alloc: Global, pointer: u32, array: u32) -> Result<(), NoMemory>
        ensures { OnOk result (held self.new ≡ with_address (held self.old) pointer array) }
    {
        if is_among(self.arrays(pointer), array) {
            return Ok(());
        }
        self.widen(alloc, pointer as usize + 1)?;
        self.put(pointer as usize, array)
    }
}
