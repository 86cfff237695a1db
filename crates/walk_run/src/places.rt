//! The places that indexes name, valued and tested.
ghost use Rattle.std.specs.Prelude.{◌≡◌, ◌+◌, ◌<◌, ◌≤◌, ◌^◌, length, IfOk};
ghost use Rattle.walk_run.specs.Store.{IsInside, pointed, words_of};
ghost use Rattle.walk_run.specs.Value.{place_in, place_behind, target_place, end_place, with_room};

use crate::live::Live;
use crate::place::Place;
use crate::trap::Trap;
use task_ast::{CoreEnd, CoreTarget};

impl Live {
    /// The place at an index of an array.
    pub fn place_in(&self, array: u32, index: u32) -> Result<Place, Trap>
        ensures place { result ≡ place_in self.now array index }
        ensures inside { IfOk result (λ at. IsInside self.now at) }
    {
        if index < self.room(array) {
            Ok(Place { array, index })
        } else {
            Err(Trap::Index)
        }
    }

    /// The place at an index through a pointer: so many places behind the one that it points to.
    pub fn place_behind(&self, pointer: u32, index: u32) -> Result<Place, Trap>
        ensures place { result ≡ place_behind self.now (pointed self.now pointer) index }
        ensures inside { IfOk result (λ at. IsInside self.now at) }
    {
        let Some(first) = self.pointed(pointer) else {
            return Err(Trap::Unset);
        };
        let room = self.room(first.array);
        if u64::from(first.index) + u64::from(index) < u64::from(room) {
            Ok(Place {
                array: first.array,
                index: first.index + index,
            })
        } else {
            Err(Trap::Index)
        }
    }

    /// The place of a target.
    pub fn target(&self, target: &CoreTarget) -> Result<Place, Trap>
        ensures place { result ≡ target_place target.now self.now }
        ensures inside { IfOk result (λ at. IsInside self.now at) }
    {
        match target {
            CoreTarget::Cell(array, index) => {
                let index = self.value(index)?;
                self.place_in(*array, index)
            }
            CoreTarget::Through(pointer, index) => {
                let index = self.value(index)?;
                self.place_behind(*pointer, index)
            }
        }
    }

    /// The place of a copy's end.
    pub fn end(&self, end: &CoreEnd) -> Result<Place, Trap>
        ensures { result ≡ end_place end.now self.now }
    {
        match end {
            CoreEnd::Cell(array, index) => {
                let index = self.value(index)?;
                self.place_in(*array, index)
            }
            CoreEnd::Pointer(pointer) => match self.pointed(*pointer) {
                Some(at) => Ok(at),
                None => Err(Trap::Unset),
            },
        }
    }

    /// Tests that so many words from a place on are in its array.
    pub fn with_room(&self, at: Place, words: u32) -> Result<Place, Trap>
        ensures room { result ≡ with_room self.now at words }
        ensures inside { IfOk result (λ _. at.index + words ≤ length (words_of self.now at.array)) }
        ensures short { IfOk result (λ _. at.index + words < 2 ^ 32) }
    {
        let room = self.room(at.array);
        if u64::from(at.index) + u64::from(words) <= u64::from(room) {
            Ok(at)
        } else {
            Err(Trap::Range)
        }
    }
}
