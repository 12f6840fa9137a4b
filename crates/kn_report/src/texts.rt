ghost use Rattle.std.specs.Prelude.{◌≡◌, ◌<◌, ◌≤◌, ◌^◌, ◌++◌, OnOk, IfOk, string_bytes, length, sum_by};
ghost use Rattle.kn_graph.specs.Logs.{replies_of};
ghost use Rattle.kn_report.specs.Reports.{report_text, thread_text, reply_lines, tail_text, threads_text, count_line};

use crate::events::Counted;
use crate::logs::Log;
use kn_graph::{Entry, Event};
use std::alloc::{AllocError, Global};

/// Puts the replies of one log behind the text, each on a line.
fn push_replies(text: &mut String, log: &[Entry]) -> Result<(), AllocError>
    ensures { OnOk result (string_bytes text.new ≡ string_bytes text.old ++ reply_lines (replies_of log.now)) }
{
    for entry in log {
        if let Event::Call(_, reply, _) = entry.what {
            writeln!(text, "{reply}")?;
        }
    }
    Ok(())
}

fn push_thread(text: &mut String, thread: usize, log: &[Entry]) -> Result<(), AllocError>
    ensures { OnOk result (string_bytes text.new ≡ string_bytes text.old ++ thread_text thread log.now) }
{
    writeln!(text, "thread {thread}")?;
    push_replies(text, log)
}

/// Puts the replies of the first threads behind the text. An error is want of memory.
pub fn push_threads(text: &mut String, threads: usize, logs: &[Log]) -> Result<(), AllocError>
    requires { threads ≤ length logs.now }
    ensures { OnOk result (string_bytes text.new ≡ string_bytes text.old ++ threads_text threads logs.now) }
{
    for thread in 0..threads {
        push_thread(text, thread, logs[thread].as_slice())?;
    }
    Ok(())
}

/// Puts a name and a number behind the text, on a line. An error is want of memory.
pub fn push_count(text: &mut String, name: &str, count: u64) -> Result<(), AllocError>
    ensures { OnOk result (string_bytes text.new ≡ string_bytes text.old ++ count_line name.now count) }
{
    writeln!(text, "{name} {count}")
}

/// Puts the numbers of events of each kind behind the text, and `end`.
fn push_tail(text: &mut String, logs: &[Log]) -> Result<(), AllocError>
    requires { sum_by (λ log. length log) logs.now < 2 ^ 32 }
    ensures { OnOk result (string_bytes text.new ≡ string_bytes text.old ++ tail_text logs.now) }
{
    push_count(text, "calls", Counted::Calls.count_all(logs))?;
    push_count(text, "epochs", Counted::Epochs.count_all(logs))?;
    push_count(text, "released", Counted::Released.count_all(logs))?;
    push_count(text, "queued", Counted::Queued.count_all(logs))?;
    push_count(text, "finalized", Counted::Finalized.count_all(logs))?;
    writeln!(text, "end")
}

/// The text of a run (`report_text` in `specs/Reports.antt`): the replies of each thread, and the
/// tail. There is one log for each caller, in the order of their numbers, and the last two are
/// those of the collector and the finalizer. An error is want of memory.
pub fn report(alloc: Global, logs: &[Log]) -> Result<String, AllocError>
    requires callers { 3 ≤ length logs.now }
    requires entries { sum_by (λ log. length log) logs.now < 2 ^ 32 }
    ensures { IfOk result (λ text. string_bytes text ≡ report_text logs.now) }
{
    let mut text = String::new(alloc);
    push_threads(&mut text, logs.len() - 2, logs)?;
    push_tail(&mut text, logs)?;
    Ok(text)
}
