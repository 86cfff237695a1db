//! Ranges of addresses.
ghost use Rattle.std.specs.Prelude.{◌≡◌, ◌+◌, ◌<◌, ◌^◌};
ghost use Rattle.word_isa.specs.Entries as spec;

/// The addresses from `from` on that lie below `to`.
#[derive(Clone, Copy)]
pub struct Span {
    pub from: u64,
    pub to: u64,
}

impl Span {
    /// `length` addresses from `base` on.
    pub fn new(base: u64, length: u32) -> Span
        requires { base < 2 ^ 33 }
        ensures { result ≡ spec.span base length }
    {
        Span {
            from: base,
            to: base + u64::from(length),
        }
    }

    /// Whether both have an address.
    pub fn meets(&self, other: Span) -> bool
        ensures { result ≡ spec.meet self.now other }
    {
        self.from.max(other.from) < self.to.min(other.to)
    }
}
