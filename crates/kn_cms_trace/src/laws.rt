//! The law of runs. Its clauses are those of a function that does nothing; what they say is written
//! in `specs/RunLaws.antt`.

ghost use Rattle.kn_cms_trace.specs.RunLaws.{RunsAreOne, TurnsComeToOne};

/// A script has one run.
pub fn one_run_law()
    ensures turns { TurnsComeToOne }
    ensures runs { RunsAreOne }
{}
