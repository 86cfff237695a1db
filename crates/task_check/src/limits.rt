//! Whether a count is within a limit; the limits themselves stand in task_ast.
ghost use Rattle.std.specs.Prelude.{◌≡◌, ◌+◌, ◌≤◌, length, if◌then◌else◌};
ghost use Rattle.task_check.specs.Finds.{Finds};
ghost use Rattle.task_check.specs.Limits.{bytes_limit, loops_limit, name_limit, passes, task_limit, turns_limit};

use crate::error::{CheckError, Limit};
use ease_base::Pos;
use task_ast::Name;
use task_ast::limits::{
    LONGEST_NAME, MOST_LOOPS, MOST_NAMES, MOST_TASKS, MOST_TURNS, MOST_UNROLLED,
};

/// That a count at a place is at most what a limit allows.
pub fn within(limit: Limit, most: u128, at: Pos, count: u128) -> Result<(), CheckError>
    ensures { Finds (passes limit most at count) (λ _. count ≤ most) result }
{
    if count > most {
        return Err(CheckError::LimitReached(at, limit, count));
    }
    Ok(())
}

/// That so many tasks are allowed, the last with its name at the place.
pub fn tasks_fit(at: Pos, count: u128) -> Result<(), CheckError>
    ensures { Finds (task_limit at count) (λ _. Unit {0}) result }
{
    within(Limit::Tasks, MOST_TASKS as u128, at, count)
}

/// That so many declared names are allowed, the last at the place.
pub fn names_fit(at: Pos, count: u128) -> Result<(), CheckError>
    ensures { Finds (name_limit at count) (λ _. count ≤ 256) result }
{
    within(Limit::Names, MOST_NAMES as u128, at, count)
}

/// That a declared name isn't too long.
pub fn name_fits(x: &Name) -> Result<(), CheckError>
    ensures { Finds (bytes_limit x.now) (λ _. Unit {0}) result }
{
    within(
        Limit::NameBytes,
        LONGEST_NAME as u128,
        x.at,
        x.text.len() as u128,
    )
}

/// How many pure loops are around the body of a loop inside so many; the word `for` stands at the place.
pub fn loops_fit(unrolled: bool, word: Pos, level: u32) -> Result<u32, CheckError>
    ensures { Finds (loops_limit unrolled word (level + 1)) (λ inner. inner ≡ (if unrolled then level else level + 1)) result }
{
    if unrolled {
        return Ok(level);
    }
    within(
        Limit::Loops,
        MOST_LOOPS as u128,
        word,
        u128::from(level) + 1,
    )?;
    Ok(level + 1)
}

/// That a loop may have so many turns; their number stands at the place.
pub fn turns_fit(unrolled: bool, at: Pos, turns: u32) -> Result<(), CheckError>
    ensures { Finds (turns_limit unrolled at turns) (λ _. Unit {0}) result }
{
    let most = if unrolled { MOST_UNROLLED } else { MOST_TURNS };
    within(Limit::Turns, u128::from(most), at, u128::from(turns))
}
