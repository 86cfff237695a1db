//! The printed text of a run.
ghost use Rattle.std.specs.Prelude.{◌≡◌, ◌++◌, IfOk, OnOk};
ghost use Rattle.std.specs.List.{flat_map};
ghost use Rattle.ease_base.specs.Lines.{line};
ghost use Rattle.walk_run.specs.Store.{shown_names};
ghost use Rattle.walk_run.specs.WalkText.{word_text, array_line, array_lines, state_text, end_text, text_of};

use crate::walked::{State, WalkEnd, Walked};
use ease_base::{NoMemory, Text, Words, put_number};
use std::alloc::Global;
use task_ast::{Array, Core, Kind};

/// The text of a run of `c`: for each state `commit T` and a line for each array that it shows, then how the
/// run ended. The lines stand in docs/LANGUAGE.md.
#[tactic(auto, unfolding(crate::specs::WalkText::text_of))]
pub fn walk_text(alloc: Global, c: &Core, w: &Walked) -> Result<Text, NoMemory>
    ensures { IfOk result (λ t. t ≡ text_of c.now w.now) }
{
    let mut out = Text::new(alloc);
    'states: for state in w.states.as_slice() {
        put_state(&mut out, c.arrays.as_slice(), state)?;
    }
    put_end(&mut out, w.end)?;
    Ok(out)
}

#[tactic(auto, using(std::proofs::Common::append_assoc), unfolding(crate::specs::WalkText::state_text))]
fn put_state(out: &mut Text, arrays: &[Array], state: &State) -> Result<(), NoMemory>
    ensures { OnOk result (out.new ≡ out.old ++ state_text (shown_names arrays.now) state.now) }
{
    out.extend(b"commit ")?;
    put_number(out, u64::from(state.next))?;
    out.push(b'\n')?;
    put_arrays(out, arrays, state.words.as_slice())
}

fn put_arrays(out: &mut Text, arrays: &[Array], words: &[Words]) -> Result<(), NoMemory>
    ensures { OnOk result (out.new ≡ out.old ++ array_lines (shown_names arrays.now) words.now) }
{
    let mut left = words;
    'arrays: for array in arrays {
        if array.kind == Kind::Nv {
            let Some((first, rest)) = left.split_first() else {
                return Ok(());
            };
            put_array(out, array.name.as_slice(), first.as_slice())?;
            left = rest;
        }
    }
    Ok(())
}

#[tactic(auto, using(std::proofs::Common::append_assoc), unfolding(crate::specs::WalkText::array_line))]
fn put_array(out: &mut Text, name: &[u8], words: &[u32]) -> Result<(), NoMemory>
    ensures { OnOk result (out.new ≡ out.old ++ array_line name.now words.now) }
{
    out.extend(name)?;
    out.extend(b" =")?;
    put_words(out, words)?;
    out.push(b'\n')?;
    Ok(())
}

fn put_words(out: &mut Text, words: &[u32]) -> Result<(), NoMemory>
    ensures { OnOk result (out.new ≡ out.old ++ flat_map word_text words.now) }
{
    'words: for word in words {
        out.push(b' ')?;
        put_number(out, u64::from(*word))?;
    }
    Ok(())
}

fn put_end(out: &mut Text, end: WalkEnd) -> Result<(), NoMemory>
    ensures { OnOk result (out.new ≡ out.old ++ line (end_text end)) }
{
    match end {
        WalkEnd::Stopped => out.extend(b"end stopped\n"),
        WalkEnd::Limit => out.extend(b"end limit\n"),
        WalkEnd::Trapped(trap) => {
            out.extend(b"end trapped ")?;
            put_number(out, u64::from(trap.code()))?;
            out.push(b'\n')?;
            Ok(())
        }
        WalkEnd::NoReading => out.extend(b"end reading\n"),
    }
}
