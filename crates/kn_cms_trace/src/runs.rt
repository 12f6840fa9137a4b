//! A run of a script on a core, from its opening to its end.

ghost use Rattle.std.specs.Prelude.{◌≡◌, ◌<◌, IfOk, true};
ghost use Rattle.std.specs.List.{AllByRecursion};
ghost use Rattle.kn_script.specs.Good.{IsGoodScript};
ghost use Rattle.kn_cms_rule.specs.Calls.{is_core_call};
ghost use Rattle.kn_cms_trace.specs.Enough.{enough_turns};
ghost use Rattle.kn_cms_trace.specs.Runners.{IsOfScript, RanCore};

use crate::runner::CoreRunner;
use kn_cms::Core;
use kn_script::Script;
use std::alloc::{AllocError, Global};

/// What a run leaves: the core, and whether its turns were spent with some actor not ended.
#[derive(Drop)]
pub struct CoreTraced {
    pub core: Core,
    pub is_spent: bool,
}

/// Runs a script on a core, until each thread and the collector have ended or the turns are spent.
/// An error is want of memory.
pub fn trace_core(alloc: Global, script: &Script) -> Result<CoreTraced, AllocError>
    requires good { IsGoodScript script.now }
    requires calls { AllByRecursion (AllByRecursion (λ call. is_core_call call ≡ true)) script.now.threads }
    ensures of_script { IfOk result (λ traced. IsOfScript script.now traced.core) }
    ensures run { IfOk result (λ traced. RanCore script.now traced.is_spent traced.core) }
    ensures spent_below { IfOk result (λ traced. traced.is_spent ≡ true → script.now.turns < enough_turns script.now) }
{
    let mut runner = CoreRunner::open(alloc, script)?;
    runner.take_turns(script.turns);
    let is_spent = runner.is_going_on();
    Ok(CoreTraced {
        core: runner.into_core(),
        is_spent,
    })
}
