//! The class of a copy, by the memories of its two ends.
ghost use Rattle.std.specs.Prelude.{◌≡◌};
ghost use Rattle.region_split.specs.Class.{class_of};

/// Where a word stands.
#[derive(Clone, Copy, PartialEq, Eq)]
pub enum Memory {
    /// FRAM, which a power failure leaves.
    Fram,
    /// FRAM that is never written.
    ConstFram,
    /// RAM, which a power failure fills.
    Ram,
}

/// How a copy is carried out over power failures.
#[derive(Clone, Copy, PartialEq, Eq)]
pub enum DmaClass {
    /// Once; later attempts put back the words that stood at the destination.
    Single,
    /// In each attempt, from the words that its source had the first time.
    Private,
    /// In each attempt, from a source that can't change.
    Exclude,
    /// In each attempt, between words that a failure takes anyway.
    Always,
}

/// The class of a copy (docs/LANGUAGE.md, "Copies"). A destination in constant FRAM counts as FRAM.
pub fn class_of(from: Memory, to: Memory) -> DmaClass
    ensures { result ≡ class_of from to }
{
    match (to, from) {
        (Memory::Fram | Memory::ConstFram, _) => DmaClass::Single,
        (Memory::Ram, Memory::ConstFram) => DmaClass::Exclude,
        (Memory::Ram, Memory::Fram) => DmaClass::Private,
        (Memory::Ram, Memory::Ram) => DmaClass::Always,
    }
}
