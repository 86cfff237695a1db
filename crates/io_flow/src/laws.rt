//! What holds of every two runs of a task, as the contract of a function that does nothing.
ghost use Rattle.std.specs.Prelude.{ℕ};
ghost use Rattle.task_ast.specs.declared.core_form.CoreTask.{CoreTask};
ghost use Rattle.walk_run.specs.Store.{Store};
ghost use Rattle.io_flow.specs.Replay.{all_until};
ghost use Rattle.io_flow.specs.Laws.{AgreeAt, AgreeInto, PointsNowhere};

/// Two runs of a task from one store, each with a reading for each of its I/O sites, agree at a site where neither traps
/// before it, if they have the same reading at each I/O site from which that site is found: both reach it or neither
/// does, with the same arguments, or with the same ends, length and source words.
#[tactic(auto, using(crate::proofs::Dependence::agree_at))]
pub fn what_a_site_is_valued_at_is_told_by_what_flows_into_it()
    ensures { (t : CoreTask) (k : ℕ) (r r' : ℕ → ℕ) → AgreeInto t k r r' → (store : Store) → PointsNowhere store
        → AgreeAt (all_until k r t.body store) (all_until k r' t.body store) }
{}
