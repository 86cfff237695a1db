//! The greatest length of a copy: the lesser of the longest arrays that its ends may be in.
ghost use Rattle.std.specs.Prelude.{◌≡◌, slice_get};
ghost use Rattle.task_ast.specs.CoreSites.{longest, room};
ghost use Rattle.task_check.specs.CheckedForm.{end_of};
ghost use Rattle.task_check.specs.Names.{array_number as number_of};
ghost use Rattle.task_check.specs.Reach.{end_words};
ghost use Rattle.task_check.specs.Table.{around_of, copied};

use crate::around::Surroundings;
use crate::names::{array_number, pointer_of};
use crate::places::name_of;
use task_ast::{Array, Place};

/// The words of the array of this number, if it is there.
fn words_of(arrays: &[Array], array: u32) -> usize
    ensures { result ≡ room (slice_get arrays.now array) }
{
    match arrays.get(array as usize) {
        None => 0,
        Some(found) => found.first.len(),
    }
}

/// The words of the longest of these arrays; 0 where there is none.
fn longest_of(arrays: &[Array], numbers: &[u32]) -> usize
    ensures { result ≡ longest arrays.now numbers.now }
{
    let mut most = 0;
    for array in numbers {
        most = most.max(words_of(arrays, *array));
    }
    most
}

/// The words of the longest array that a copy's end may be in.
#[tactic(auto, using(crate::proofs::CopyLemmas::longest_one))]
fn longest_at(around: &Surroundings, place: &Place) -> usize
    ensures { result ≡ end_words around.now.arrays.now (around_of around.now).reach (end_of (around_of around.now).names place.now) }
{
    let meaning = around.names.find(name_of(place).text.as_slice());
    match place {
        Place::Bare(_) => match pointer_of(meaning) {
            None => words_of(around.arrays, array_number(meaning)),
            Some(pointer) => longest_of(around.arrays, around.points.arrays(pointer)),
        },
        Place::Scalar(_) | Place::Element(..) => words_of(around.arrays, array_number(meaning)),
    }
}

/// The greatest length of a copy between two places.
pub fn greatest(around: &Surroundings, to: &Place, from: &Place) -> usize
    ensures { result ≡ copied around.now to.now from.now }
{
    longest_at(around, to).min(longest_at(around, from))
}
