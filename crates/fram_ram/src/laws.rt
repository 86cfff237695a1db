//! What holds of every transfer, as the contract of a function that does nothing.
ghost use Rattle.std.specs.Prelude.{◌≡◌, ℕ};
ghost use Rattle.fram_ram.specs.Engine.{begun, moved_words, copied};

/// The words of a transfer, moved one after the other, are one update each, the lowest place first.
#[tactic(auto)]
pub fn a_transfer_is_one_update_a_word(to: u32, from: u32, n: u32)
    ensures { (store : ℕ → ℕ) → moved_words n (begun to from n) store ≡ copied to from 0 n store }
{}
