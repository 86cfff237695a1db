//! The table of declared names: what each name stands for.
ghost use Rattle.std.specs.Prelude.{◌≡◌, ◌∷◌, [], ◌≤◌, ◌^◌, IfOk, IfErr, OnOk, None, is_none};
ghost use Rattle.task_check.specs.Names.{array_number as number_of, array_of as named_array, extended, peripheral_number as number_of_peripheral, pointer_of as named_pointer, task_number as number_of_task};
ghost use Rattle.task_check.specs.Table.{meanings};

use ease_base::NoMemory;
use indexmap::IndexMap;
use std::alloc::Global;
use task_ast::Kind;

/// What a declared name stands for.
#[derive(Clone, Copy)]
pub enum Meaning {
    /// A scalar: the number of its array, from 0, and its kind.
    Scalar(u32, Kind),
    /// An array: its number, from 0, and its kind.
    Array(u32, Kind),
    /// A pointer: its number, from 0.
    Pointer(u32),
    /// A peripheral: its number, from 0, in the order of declarations.
    Peripheral(u32),
    /// A task: its number, from 1.
    Task(u32),
}

/// The number of the array that a name stands for, if it stands for one.
pub fn array_of(m: Option<Meaning>) -> Option<u32>
    ensures { result ≡ named_array m }
{
    match m {
        Some(Meaning::Scalar(array, _) | Meaning::Array(array, _)) => Some(array),
        Some(Meaning::Pointer(_) | Meaning::Peripheral(_) | Meaning::Task(_)) | None => None,
    }
}

/// The same; 0 where it stands for none.
pub fn array_number(m: Option<Meaning>) -> u32
    ensures { result ≡ number_of m }
{
    array_of(m).unwrap_or(0)
}

/// The number of the pointer that a name stands for, if it stands for one.
pub fn pointer_of(m: Option<Meaning>) -> Option<u32>
    ensures { result ≡ named_pointer m }
{
    match m {
        Some(Meaning::Pointer(pointer)) => Some(pointer),
        Some(Meaning::Scalar(..) | Meaning::Array(..) | Meaning::Peripheral(_) | Meaning::Task(_))
        | None => None,
    }
}

/// The number of the peripheral that a name stands for; 0 where it stands for none.
pub fn peripheral_number(m: Option<Meaning>) -> u32
    ensures { result ≡ number_of_peripheral m }
{
    match m {
        Some(Meaning::Peripheral(peripheral)) => peripheral,
        Some(Meaning::Scalar(..) | Meaning::Array(..) | Meaning::Pointer(_) | Meaning::Task(_))
        | None => 0,
    }
}

/// The number of the task that a name stands for; 0 where it stands for none.
pub fn task_number(m: Option<Meaning>) -> u32
    ensures { result ≡ number_of_task m }
{
    match m {
        Some(Meaning::Task(task)) => task,
        Some(
            Meaning::Scalar(..) | Meaning::Array(..) | Meaning::Pointer(_) | Meaning::Peripheral(_),
        )
        | None => 0,
    }
}

/// How many arrays, pointers and peripherals are declared before a place.
#[derive(Clone, Copy)]
pub struct Numbers {
    pub arrays: u32,
    pub pointers: u32,
    pub peripherals: u32,
}

/// Names in the order of their first declarations.
#[derive(Drop)]
pub struct Names<'a> {
    map: IndexMap<&'a [u8], Meaning>,
}

impl<'a> Names<'a> {
    pub fn new(alloc: Global) -> Names<'a>
        ensures { meanings result ≡ (λ _. None) }
    {
        Names {
            map: IndexMap::new(alloc),
        }
    }

    /// What `text` stands for; None where it isn't declared.
    pub fn find(&self, text: &[u8]) -> Option<Meaning>
        ensures { result ≡ meanings self.now text.now }
    {
        self.map.get(text).copied()
    }

    /// Declares `text`, and says whether it is new. A name that was declared keeps its meaning.
    pub fn declare(&mut self, text: &'a [u8], meaning: Meaning) -> Result<bool, NoMemory>
        ensures first { IfOk result (λ first. first ≡ is_none (meanings self.old text.now)) }
        ensures declared { OnOk result (meanings self.new ≡ extended (meanings self.old) ((text.now, meaning) ∷ [])) }
    {
        if self.find(text).is_some() {
            return Ok(false);
        }
        self.map.insert(text, meaning)?;
        Ok(true)
    }
}

/// The number as `u32`. A tree of 2 ^ 32 names or tasks has no room in memory.
pub fn number(at: usize) -> Result<u32, NoMemory>
    ensures same { IfOk result (λ n. n ≡ at) }
    ensures full { IfErr result (λ _. 2 ^ 32 ≤ at) }
{
    u32::try_from(at).map_err(|_| NoMemory)
}
