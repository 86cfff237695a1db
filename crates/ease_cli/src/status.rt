//! How a command ended.
ghost use Rattle.std.specs.Prelude.{◌≡◌};
ghost use Rattle.ease_cli.specs.Status.{number_of};

/// The status of a command; `number` is the exit status of the process.
#[derive(Clone, Copy, Debug, PartialEq, Eq)]
pub enum Status {
    /// The output was written whole.
    Ok,
    /// The words are no command.
    Usage,
    /// The source has no tree, or its tree isn't accepted.
    SourceRefused,
    /// The bytes are no world.
    WorldRefused,
    /// The bytes are no image.
    ImageRefused,
    /// A file of the words could not be fetched.
    ReadFault,
    /// A write failed; what was written is a front of the output.
    WriteFault,
    /// A file is longer than its limit.
    TooLong,
    /// Memory ran out before anything was written.
    NoMemory,
    /// The run trapped; its output was written whole.
    Trapped,
    /// The power ended before the machine did, or a session was spent; the output was written whole.
    PowerEnded,
    /// A line of the script may not stand.
    ScriptRefused,
    /// The bytes are no full report.
    ReportRefused,
    /// The report is no journal that the rules allow; the line that says so was written whole.
    Illegal,
}

impl Status {
    /// The exit status of the process.
    pub fn number(self) -> u8
        ensures { result ≡ number_of self }
    {
        match self {
            Status::Ok => 0,
            Status::Usage => 1,
            Status::SourceRefused => 2,
            Status::WorldRefused => 3,
            Status::ImageRefused => 4,
            Status::ReadFault => 5,
            Status::WriteFault => 6,
            Status::TooLong => 7,
            Status::NoMemory => 8,
            Status::Trapped => 9,
            Status::PowerEnded => 10,
            Status::ScriptRefused => 11,
            Status::ReportRefused => 12,
            Status::Illegal => 13,
        }
    }
}
