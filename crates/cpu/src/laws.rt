// What holds of runs. The lemma on each function is the law's proof.
ghost use Rattle.cpu.specs.Laws.{RunsJoin, RefusedRunsChangeNothing};

#[tactic(auto, using(crate::proofs::Joining::consecutive_runs))]
pub fn runs_join()
    ensures { RunsJoin }
{}

#[tactic(auto, using(crate::proofs::Joining::refused_runs))]
pub fn refused_runs_change_nothing()
    ensures { RefusedRunsChangeNothing }
{}
