//! Where the words of a program lie (docs/CODE.md, "Memory").
ghost use Rattle.std.specs.Prelude.{◌≡◌, ◌+◌, ◌*◌, ◌<◌, ◌≤◌, [], IfOk, length, sum_by};
ghost use Rattle.line_code.specs.Areas.{area_of, area_at, areas_from, free_of, free_at_first, pointer_at, total};

use ease_base::{List, NoMemory};
use std::alloc::Global;
use task_ast::{Array, Kind};

/// Where an array lies: the register that its address counts from, its offset from there, and its number of words.
#[derive(Clone, Copy, Debug, PartialEq, Eq)]
pub struct Placed {
    pub base: u8,
    pub offset: u16,
    pub room: u16,
}

/// The next free offset of each kind.
#[derive(Clone, Copy)]
pub struct Free {
    pub nv: u16,
    pub constant: u16,
    pub volatile: u16,
}

/// Where each array lies, by its number: arrays of a kind in order. A kind has at most 2,048 words.
pub fn areas_of(alloc: Global, arrays: &[Array]) -> Result<List<Placed>, NoMemory>
    requires { total arrays.now ≤ 4096 }
    ensures { IfOk result (λ areas. areas ≡ areas_from free_at_first arrays.now) }
{
    let mut areas = List::new(alloc);
    let mut free = Free {
        nv: 1,
        constant: 4097,
        volatile: 832,
    };
    'arrays: for array in arrays {
        let room = array.first.len() as u16;
        areas.push(area_of(free, array.kind, room))?;
        free = free_behind(free, array.kind, room);
    }
    Ok(areas)
}

// Where the next array of a kind lies.
fn area_of(free: Free, kind: Kind, room: u16) -> Placed
    ensures { result ≡ area_of free kind room }
{
    match kind {
        Kind::Nv => Placed {
            base: 14,
            offset: free.nv,
            room,
        },
        Kind::Const => Placed {
            base: 0,
            offset: free.constant,
            room,
        },
        Kind::Vol => Placed {
            base: 15,
            offset: free.volatile,
            room,
        },
    }
}

// What is free behind it.
fn free_behind(free: Free, kind: Kind, room: u16) -> Free
    requires { (free.nv + room < 65536) × (free.constant + room < 65536) × (free.volatile + room < 65536) }
    ensures { result ≡ free_of free kind room }
{
    match kind {
        Kind::Nv => Free {
            nv: free.nv + room,
            ..free
        },
        Kind::Const => Free {
            constant: free.constant + room,
            ..free
        },
        Kind::Vol => Free {
            volatile: free.volatile + room,
            ..free
        },
    }
}

/// Where an array lies; without words at address 0 where there is no such array.
pub fn area_at(areas: &[Placed], array: u32) -> Placed
    ensures { result ≡ area_at areas.now array }
{
    match areas.get(array as usize) {
        Some(area) => *area,
        None => Placed {
            base: 0,
            offset: 0,
            room: 0,
        },
    }
}

/// The offset of a pointer's address in RAM; its room is behind it.
pub fn pointer_cell(pointer: u32) -> u16
    requires { pointer < 256 }
    ensures { result ≡ pointer_at pointer }
{
    320 + 2 * pointer as u16
}
