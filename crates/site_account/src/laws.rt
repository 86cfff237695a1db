//! What holds of the sites of every program, as the contract of a function that does nothing.
ghost use Rattle.std.specs.Prelude.{◌≡◌, map};
ghost use Rattle.site_account.specs.Places.{program_places, word_of};
ghost use Rattle.task_check.specs.CheckedForm.{core_of};

use task_ast::Program;

/// Each task has as many places as its checked form has sites, and at each stands the word of its site: `IO` where a call
/// is, `IO_BLOCK` where a block is, `DMA` where a copy is.
#[tactic(auto, using(crate::proofs::PlaceLaws::program_words))]
pub fn each_site_has_its_place(p: &Program)
    ensures { map (map (λ place. place.word)) (program_places p.now) ≡ map (λ t. map word_of t.sites) (core_of p.now).tasks }
{}
