//! Counts that stand still at their end, and calls that are to fail by their number.
ghost use Rattle.std.specs.Prelude.{◌≡◌, ◌≤◌};
ghost use Rattle.ease_base.specs.Calls.{fails_next};
ghost use Rattle.ease_base.specs.Count.{raised};

use crate::list::Words;

// One higher; 18446744073709551615 stays.
pub(crate) fn raise(count: &mut u64)
    ensures raised { count.new ≡ raised count.old }
    ensures never_falls { count.old ≤ count.new }
{
    *count = count.saturating_add(1);
}

// Counts a call, and says whether its number stands in `fails`.
pub(crate) fn count_call(fails: &Words, calls: &mut u64) -> bool
    ensures fails { result ≡ fails_next fails.now calls.old }
    ensures calls { calls.new ≡ raised calls.old }
{
    raise(calls);
    let number = *calls;
    fails
        .as_slice()
        .iter()
        .any(|call| u64::from(*call) == number)
}
