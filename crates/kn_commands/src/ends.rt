//! How a form that runs a script reads, and what it writes.

ghost use Rattle.std.specs.Prelude.{◌≡◌, Some, IfOk, IfErr, OnOk, option_map, string_bytes};
ghost use Rattle.kn_io.specs.Counts.{Rose, NeverFalls};
ghost use Rattle.kn_io.specs.Told.{GivesAll, GivesSome};
ghost use Rattle.kn_lines.specs.declared.built.Built.{Built};
ghost use Rattle.kn_commands.specs.Ends.{IsFinished, IsSilent, IsUnread, Refuses, Writes};

use crate::refusals::refusal_line;
use crate::status::Status;
use kn_base::LONGEST_TEXT;
use kn_io::{ReadEnd, Sink, Source, read_all, write_all};
use kn_script::Why;
use std::alloc::Global;

/// Writes a text. Where the sink fails a prefix of it went out.
pub fn write_text<K: Sink>(sink: &mut K, text: &[u8])
    ensures writes { Writes text.now (K.held sink.old) (K.held sink.new) (K.faults sink.old) (K.faults sink.new) }
    ensures flushed { (Rose (K.faults sink.old) (K.faults sink.new) → ⊥) → K.is_flushed sink.new }
    ensures count { NeverFalls (K.faults sink.old) (K.faults sink.new) }
{
    let _ = write_all(sink, text);
}

/// Reads the bytes of a script to their end.
pub fn read_bytes<S: Source>(alloc: Global, source: &mut S) -> Result<Vec<u8>, Status>
    ensures given { IfOk result (λ bytes. GivesAll (S.left source.old) (S.left source.new) bytes.items) }
    ensures unread { IfErr result (λ status. (built : Built) → IsUnread built status
        (S.left source.old) (S.left source.new) (S.faults source.old) (S.faults source.new)) }
    ensures ok_without_fault { OnOk result (S.faults source.new ≡ S.faults source.old) }
    ensures left { GivesSome (S.left source.old) (S.left source.new) }
    ensures count { NeverFalls (S.faults source.old) (S.faults source.new) }
{
    match read_all(alloc, source, LONGEST_TEXT) {
        Ok(bytes) => Ok(bytes),
        Err(ReadEnd::Failed) => Err(Status::ReadFault),
        Err(ReadEnd::TooLong { line }) => Err(Status::Script {
            line,
            why: Why::Long,
        }),
        Err(ReadEnd::Memory) => Err(Status::Memory),
    }
}

/// Tells why nothing was run. Only a bad script is told.
pub fn tell<K: Sink>(sink: &mut K, status: Status)
    ensures told { Refuses status (K.held sink.old) (K.held sink.new) (K.faults sink.old) (K.faults sink.new) }
    ensures silent { IsSilent status → sink.new ≡ sink.old }
    ensures count { NeverFalls (K.faults sink.old) (K.faults sink.new) }
{
    if let Status::Script { line, why } = status {
        write_text(sink, refusal_line(line, why).as_str().as_bytes());
    }
}

/// Writes the report of a run.
fn write_report<K: Sink>(sink: &mut K, text: &[u8]) -> Status
    ensures finished { IsFinished result (Some text.now)
        (K.held sink.old) (K.held sink.new) (K.faults sink.old) (K.faults sink.new) }
    ensures flushed { result ≡ Status.Ok → K.is_flushed sink.new }
    ensures count { NeverFalls (K.faults sink.old) (K.faults sink.new) }
{
    match write_all(sink, text) {
        Ok(()) => Status::Ok,
        Err(_) => Status::WriteFault,
    }
}

/// Ends a run that was made: writes its report, or a line where its turns were spent.
pub fn end_run<K: Sink>(sink: &mut K, report: Option<String>) -> Status
    ensures finished { IsFinished result (option_map string_bytes report)
        (K.held sink.old) (K.held sink.new) (K.faults sink.old) (K.faults sink.new) }
    ensures flushed { result ≡ Status.Ok → K.is_flushed sink.new }
    ensures count { NeverFalls (K.faults sink.old) (K.faults sink.new) }
{
    match report {
        Some(text) => write_report(sink, text.as_bytes()),
        None => {
            write_text(sink, b"turns spent\n");
            Status::Spent
        }
    }
}
