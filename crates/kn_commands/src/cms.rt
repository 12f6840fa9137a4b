ghost use Rattle.std.specs.Prelude.{◌≡◌, IfOk, IfErr, OnOk, is_none, string_bytes, true};
ghost use Rattle.std.specs.List.{AllByRecursion};
ghost use Rattle.std.specs.Option.{option_map};
ghost use Rattle.kn_io.specs.Counts.{NeverFalls};
ghost use Rattle.kn_io.specs.Devices.{seen};
ghost use Rattle.kn_io.specs.Told.{GivesSome};
ghost use Rattle.kn_script.specs.Good.{IsGoodScript};
ghost use Rattle.kn_cms.specs.declared.words.TheConstants.{CORE_WORDS};
ghost use Rattle.kn_cms_rule.specs.Calls.{is_core_call};
ghost use Rattle.kn_commands.specs.Ends.{IsRead, IsSilent, IsUnread};
ghost use Rattle.kn_commands.specs.CmsEnds.{IsCmsEnd, OkAndSpentApart, RanOnCore};

use crate::ends::{end_run, read_bytes, tell};
use crate::status::Status;
use kn_cms::read_core_script;
use kn_cms_report::core_report;
use kn_cms_trace::laws::one_run_law;
use kn_cms_trace::{CoreTraced, trace_core};
use kn_io::{Sink, Source};
use kn_script::{Fault, Script, state_laws};
use std::alloc::{AllocError, Global};

/// Reads a script of the core to its end.
fn read_core<S: Source>(alloc: Global, source: &mut S) -> Result<Script, Status>
    ensures good { IfOk result IsGoodScript }
    ensures calls { IfOk result (λ script. AllByRecursion (AllByRecursion (λ call. is_core_call call ≡ true)) script.threads) }
    ensures read { IfOk result (λ script. IsRead CORE_WORDS script (S.left source.old) (S.left source.new)) }
    ensures unread { IfErr result (λ status. IsUnread CORE_WORDS status
        (S.left source.old) (S.left source.new) (S.faults source.old) (S.faults source.new)) }
    ensures ok_without_fault { OnOk result (S.faults source.new ≡ S.faults source.old) }
    ensures left { GivesSome (S.left source.old) (S.left source.new) }
    ensures count { NeverFalls (S.faults source.old) (S.faults source.new) }
{
    let bytes = read_bytes(alloc, source)?;
    match read_core_script(alloc, &bytes) {
        Ok(script) => Ok(script),
        Err(Fault::Bad { line, why }) => Err(Status::Script { line, why }),
        Err(Fault::Memory) => Err(Status::Memory),
    }
}

/// Runs a script on a core, and makes the text of its report, or none where its turns were spent. An
/// error is want of memory.
fn run_core(alloc: Global, script: &Script) -> Result<Option<String>, AllocError>
    requires good { IsGoodScript script.now }
    requires calls { AllByRecursion (AllByRecursion (λ call. is_core_call call ≡ true)) script.now.threads }
    ensures { IfOk result (λ report. RanOnCore script.now (is_none report) (option_map string_bytes report)) }
{
    let CoreTraced { core, is_spent } = trace_core(alloc, script)?;
    if is_spent {
        return Ok(None);
    }
    Ok(Some(core_report(alloc, &core)?))
}

/// Reads a script of the core, runs it, and writes its report (`IsCmsEnd` in `specs/CmsEnds.antt`).
/// Where the source fails or memory runs out the sink is not touched.
pub fn run_cms<S: Source, K: Sink>(alloc: Global, source: &mut S, sink: &mut K) -> Status
    ensures end { IsCmsEnd (seen S.left S.faults K.held K.faults source.old sink.old)
        (seen S.left S.faults K.held K.faults source.new sink.new) result }
    ensures flushed { result ≡ Status.Ok → K.is_flushed sink.new }
    ensures untouched { IsSilent result → sink.new ≡ sink.old }
{
    state_laws();
    let script = match read_core(alloc, source) {
        Ok(script) => script,
        Err(status) => {
            tell(sink, status);
            return status;
        }
    };
    match run_core(alloc, &script) {
        Ok(report) => end_run(sink, report),
        Err(_) => Status::Memory,
    }
}

/// Of the same bytes no run of a core ends with `Ok` and another with `turns spent`.
pub fn cms_law()
    ensures { OkAndSpentApart }
{
    state_laws();
    one_run_law();
}
