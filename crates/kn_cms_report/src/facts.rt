//! What a report tells of a core.

ghost use Rattle.std.specs.Prelude.{◌≡◌, ◌<◌, ◌≤◌, IfOk, length};
ghost use Rattle.kn_graph.specs.Logs.{LogsFit, log_of};
ghost use Rattle.kn_cms_rule.specs.State.{State};
ghost use Rattle.kn_cms.specs.Stands.{StandsFor};
ghost use Rattle.kn_cms_report.specs.CoreReports.{AreFates};

use kn_cms::Core;
use kn_graph::Entry;
use kn_report::Log;
use std::alloc::{AllocError, Global};

/// The entries of one caller. An error is want of memory.
fn log_of(alloc: Global, history: &[Entry], by: u8) -> Result<Log, AllocError>
    ensures { IfOk result (λ log. log ≡ log_of by history.now) }
{
    let mut log = Log::new(alloc);
    for entry in history {
        if entry.by.0 == by {
            log.push(*entry)?;
        }
    }
    Ok(log)
}

/// The logs of so many threads. An error is want of memory.
pub fn logs_of(alloc: Global, history: &[Entry], threads: u8) -> Result<Vec<Log>, AllocError>
    ensures { IfOk result (λ logs. LogsFit threads logs.items history.now) }
{
    let mut logs = Vec::new(alloc);
    for thread in 0..threads {
        logs.push(log_of(alloc, history, thread)?)?;
    }
    Ok(logs)
}

/// Of each object of a core, whether it is condemned. An error is want of memory.
pub fn fates_of(alloc: Global, core: &Core) -> Result<Vec<bool>, AllocError>
    ensures { IfOk result (λ flags. (s : State) → StandsFor core.now s → AreFates core.now.ground s flags.items) }
{
    let mut flags = Vec::new(alloc);
    for k in 0..core.objects() {
        flags.push(core.condemned(k))?;
    }
    Ok(flags)
}
