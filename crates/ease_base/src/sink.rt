//! The seam to output: a sink takes bytes, piece by piece.
ghost use Rattle.std.specs.Prelude.{◌≡◌, ℕ, ◌<◌, ◌≤◌, List, length, take, Option, IfOk, OnOk, OnErr};
ghost use Rattle.ease_base.specs.Count.{HasRisen};
ghost use Rattle.ease_base.specs.Sink.{extended, TookFront};

use crate::error::Failed;

/// Takes bytes. Whether they are told never changes.
pub trait Sink {
    /// The bytes taken so far, where they are told.
    ghost taken: { Self → Option (List ℕ) };

    /// A count of faults that never falls.
    ghost faults: { Self → ℕ };

    /// Takes a front of `piece`, of 1 byte or more, and gives its length.
    fn write(&mut self, piece: &[u8]) -> Result<usize, Failed>
        requires { 0 < length piece.now }
        ensures some { IfOk result (λ n. 0 < n) }
        ensures within { IfOk result (λ n. n ≤ length piece.now) }
        ensures took { IfOk result (λ n. taken self.new ≡ extended (taken self.old) (take n piece.now)) }
        ensures failed { OnErr result (HasRisen (faults self.old) (faults self.new)) }
        ensures nothing { OnErr result (taken self.new ≡ taken self.old) }
        ensures faults { faults self.old ≤ faults self.new }
        ensures steady { OnOk result (faults self.new ≡ faults self.old) };
}

/// Writes the whole piece, or a front of it and then `Failed`.
pub fn send_all<K: Sink>(out: &mut K, piece: &[u8]) -> Result<(), Failed>
    ensures whole { OnOk result (K.taken out.new ≡ extended (K.taken out.old) piece.now) }
    ensures front { TookFront (K.taken out.old) (K.taken out.new) piece.now }
    ensures failed { OnErr result (HasRisen (K.faults out.old) (K.faults out.new)) }
    ensures faults { K.faults out.old ≤ K.faults out.new }
    ensures steady { OnOk result (K.faults out.new ≡ K.faults out.old) }
{
    let mut sent = 0;
    while sent < piece.len() {
        let (_, rest) = piece.split_at(sent);
        sent += out.write(rest)?;
    }
    Ok(())
}
