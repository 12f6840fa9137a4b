ghost use Rattle.std.specs.Prelude.{◌≡◌, Some, None, IfOk, IfErr, OnOk, is_none, string_bytes};
ghost use Rattle.std.specs.Option.{option_map};
ghost use Rattle.kn_io.specs.Counts.{Rose, NeverFalls};
ghost use Rattle.kn_io.specs.Devices.{seen};
ghost use Rattle.kn_io.specs.Told.{GivesSome};
ghost use Rattle.kn_report.specs.Reports.{line};
ghost use Rattle.kn_script.specs.Good.{IsGoodScript};
ghost use Rattle.kn_lines.specs.declared.built.TheConstants.{TODAY};
ghost use Rattle.kn_trace.specs.Runs.{AreBuilt};
ghost use Rattle.kn_commands.specs.Ends.{IsFinished, IsRead, IsReported, IsSilent, IsTraceEnd, IsTraceReport, IsTraceRun, IsUnread};
ghost use Rattle.kn_commands.specs.Ends.{Refuses, Writes};

use crate::ends::{end_run, read_bytes, tell};
use crate::status::Status;
use kn_board::Board;
use kn_io::{Sink, Source};
use kn_page::Page;
use kn_report::report;
use kn_script::{Fault, Script, parse, state_laws};
use kn_trace::{Traced, trace};
use std::alloc::{AllocError, Global};

/// How a form of the program ended, and the board of its run. Of a trace it is there exactly with
/// `Ok`, `Spent` and `WriteFault`.
#[derive(Drop)]
pub struct TraceEnd {
    pub status: Status,
    pub board: Option<Board<Page>>,
}

/// A run that was made: its board, and the text of its report, or none where its turns were spent.
#[derive(Drop)]
struct Made {
    board: Board<Page>,
    report: Option<String>,
}

/// Reads a script to its end.
fn read_script<S: Source>(alloc: Global, source: &mut S) -> Result<Script, Status>
    ensures good { IfOk result IsGoodScript }
    ensures built { IfOk result (λ script. AreBuilt script.threads) }
    ensures read { IfOk result (λ script. IsRead TODAY script (S.left source.old) (S.left source.new)) }
    ensures unread { IfErr result (λ status. IsUnread TODAY status
        (S.left source.old) (S.left source.new) (S.faults source.old) (S.faults source.new)) }
    ensures ok_without_fault { OnOk result (S.faults source.new ≡ S.faults source.old) }
    ensures left { GivesSome (S.left source.old) (S.left source.new) }
    ensures count { NeverFalls (S.faults source.old) (S.faults source.new) }
{
    let bytes = read_bytes(alloc, source)?;
    match parse(alloc, &bytes) {
        Ok(script) => Ok(script),
        Err(Fault::Bad { line, why }) => Err(Status::Script { line, why }),
        Err(Fault::Memory) => Err(Status::Memory),
    }
}

/// Ends a trace that has no script. Only a bad script is told.
fn refuse<K: Sink>(sink: &mut K, status: Status) -> TraceEnd
    ensures status { result.status ≡ status }
    ensures none { result.board ≡ None }
    ensures told { Refuses status (K.held sink.old) (K.held sink.new) (K.faults sink.old) (K.faults sink.new) }
    ensures silent { IsSilent status → sink.new ≡ sink.old }
    ensures count { NeverFalls (K.faults sink.old) (K.faults sink.new) }
{
    tell(sink, status);
    TraceEnd {
        status,
        board: None,
    }
}

/// Runs a script, and makes the text of its report. An error is want of memory.
fn run(alloc: Global, script: &Script) -> Result<Made, AllocError>
    requires good { IsGoodScript script.now }
    requires built { AreBuilt script.now.threads }
    ensures run { IfOk result (λ made. IsTraceRun script.now (is_none made.report) made.board) }
    ensures reported { IfOk result (λ made.
        IsReported TODAY IsTraceRun IsTraceReport script.now made.board (option_map string_bytes made.report)) }
{
    let Traced {
        board,
        logs,
        is_spent,
    } = trace(alloc, script)?;
    if is_spent {
        return Ok(Made {
            board,
            report: None,
        });
    }
    let text = report(alloc, &logs)?;
    Ok(Made {
        board,
        report: Some(text),
    })
}

/// Ends a trace whose run was made.
fn finish<K: Sink>(sink: &mut K, made: Made) -> TraceEnd
    ensures board { result.board ≡ Some made.board }
    ensures finished { IsFinished result.status (option_map string_bytes made.report)
        (K.held sink.old) (K.held sink.new) (K.faults sink.old) (K.faults sink.new) }
    ensures flushed { result.status ≡ Status.Ok → K.is_flushed sink.new }
    ensures count { NeverFalls (K.faults sink.old) (K.faults sink.new) }
{
    let Made { board, report } = made;
    TraceEnd {
        status: end_run(sink, report),
        board: Some(board),
    }
}

/// Reads a script, runs it, and writes its report (`IsTraceEnd` in `specs/Ends.antt`). Where the
/// source fails or memory runs out the sink is not touched.
pub fn run_trace<S: Source, K: Sink>(alloc: Global, source: &mut S, sink: &mut K) -> TraceEnd
    ensures end { IsTraceEnd (seen S.left S.faults K.held K.faults source.old sink.old)
        (seen S.left S.faults K.held K.faults source.new sink.new) result.status result.board }
    ensures flushed { result.status ≡ Status.Ok → K.is_flushed sink.new }
    ensures untouched { IsSilent result.status → sink.new ≡ sink.old }
{
    state_laws();
    let script = match read_script(alloc, source) {
        Ok(script) => script,
        Err(status) => return refuse(sink, status),
    };
    match run(alloc, &script) {
        Ok(made) => finish(sink, made),
        Err(_) => refuse(sink, Status::Memory),
    }
}
