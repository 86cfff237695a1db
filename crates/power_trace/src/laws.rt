//! What holds of every report, as the contract of a function that does nothing.
ghost use Rattle.std.specs.Prelude.{◌≤◌, ◌<◌, ◌^◌, ◌++◌, codes, ℕ, length};
ghost use Rattle.devices.specs.Journal.{JournalEvent};
ghost use Rattle.devices.specs.declared.event.RunEnd.{RunEnd};
ghost use Rattle.power_trace.specs.Report.{Style, number, line, event_text, end_text};
ghost use Rattle.power_trace.specs.Short.{IsWord, HasWords, IsWordEnd, AreShort};

/// Where names have at most 32 bytes and numbers are words, no line of a report has more than 256 bytes: none of an event, of a
/// boot (of a number below 2 to the 64th), or of an end.
pub fn a_line_has_at_most_256_bytes()
    ensures event { (style : Style) (steps : ℕ) (e : JournalEvent) → AreShort style → IsWord steps → HasWords e
        → length (line style steps (event_text style e)) ≤ 256 }
    ensures boot { (style : Style) (steps k : ℕ) → IsWord steps → k < 2 ^ 64 → length (line style steps (codes "boot" ++ number k)) ≤ 256 }
    ensures end { (style : Style) (steps : ℕ) (end : RunEnd) → IsWord steps → IsWordEnd end → length (line style steps (end_text end)) ≤ 256 }
{}
