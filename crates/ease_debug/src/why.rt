//! Why a site was last decided as it was.
ghost use Rattle.std.specs.Prelude.{◌≡◌};
ghost use Rattle.ease_debug.specs.Shown.{why_word};

/// The rule by which a site's last look, kept, issue or copy of an attempt came. docs/COMMANDS.md, "The debugger".
#[derive(Clone, Copy, Debug, PartialEq, Eq)]
pub enum Why {
    /// The attempt hasn't come to the site.
    NotReached,
    /// Its record was kept.
    Kept,
    /// It has looked at the clock and not decided yet.
    Looked,
    /// No earlier attempt since the last commit has made a record.
    First,
    /// The record of an earlier attempt was dropped.
    Dropped,
    /// It goes again, and its record wasn't dropped.
    Repeated,
}

impl Why {
    /// The word of the answer.
    pub fn word(self) -> &'static [u8]
        ensures { result.now ≡ why_word self }
    {
        match self {
            Why::NotReached => b"not-reached",
            Why::Kept => b"kept",
            Why::Looked => b"looked",
            Why::First => b"first",
            Why::Dropped => b"dropped",
            Why::Repeated => b"repeated",
        }
    }
}
