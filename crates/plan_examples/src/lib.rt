//! Plans of small programs and their runs over power failures, computed: examples for the definitions of run_plan.
#![tactic(auto)]
