//! The seam to files: a cabinet brings the contents of a name.
ghost use Rattle.std.specs.Prelude.{◌≡◌, ◌⊎◌, ℕ, ◌<◌, ◌≤◌, Bool, List, [], Option, OnOk, IsErrOf, vec_len};
ghost use Rattle.ease_base.specs.Count.{HasRisen};
ghost use Rattle.ease_base.specs.Cabinet.{Lacks, Brings, BringsFront, counted};

use crate::error::FetchError;
use std::alloc::Global;

/// Contents by name. What a fetch answers, the contents stay as they were.
pub trait Cabinet {
    /// Whether the contents are told. One in memory tells them, files don't.
    ghost told: { Self → Bool };

    /// The bytes of each name; None is a name that isn't there.
    ghost contents: { Self → List ℕ → Option (List ℕ) };

    /// A count of faults that never falls.
    ghost faults: { Self → ℕ };

    /// A count of the fetches that answered TooLong.
    ghost long_contents: { Self → ℕ };

    /// Brings the contents of `name`, at most `limit` bytes, into the empty `into`.
    fn fetch(
        &mut self,
        alloc: Global,
        name: &str,
        limit: usize,
        into: &mut Vec<u8>,
    ) -> Result<(), FetchError>
        requires empty { into.old.items ≡ [] }
        requires limited { limit < 4294967295 }
        ensures fits { OnOk result (vec_len into.new ≤ limit) }
        ensures brought { OnOk result (Brings (told self.old) (contents self.old) name.now into.new.items) }
        ensures failed { IsErrOf result FetchError.Failed
            → HasRisen (faults self.old) (faults self.new) ⊎ Lacks (told self.old) (contents self.old) name.now }
        ensures too_long { IsErrOf result FetchError.TooLong
            → BringsFront (told self.old) (contents self.old) name.now limit into.new.items }

        ensures faults { faults self.old ≤ faults self.new }
        ensures steady { (IsErrOf result FetchError.Failed → ⊥) → faults self.new ≡ faults self.old }
        ensures long_contents { long_contents self.new ≡ counted (long_contents self.old) result }
        ensures told { told self.new ≡ told self.old }
        ensures contents { (other : List ℕ) → contents self.new other ≡ contents self.old other };
}
