ghost use Rattle.std.specs.Prelude.{◌≡◌, ◌↔◌, None, [], ◌∷◌, IsTrue, map};
ghost use Rattle.kn_io.specs.Devices.{seen};
ghost use Rattle.kn_commands.specs.Words.{AskCms, AskTrace, Asks, without_dashes};
ghost use Rattle.kn_commands.specs.CmsEnds.{IsCmsEnd};
ghost use Rattle.kn_commands.specs.Ends.{IsSilent, IsTraceEnd, IsUsageEnd};

use crate::cms::run_cms;
use crate::ends::write_text;
use crate::status::Status;
use crate::trace::{TraceEnd, run_trace};
use kn_io::{Sink, Source};
use std::alloc::Global;

/// Whether there is one word, and it is this one.
fn is_only(words: &[&str], text: &str) -> bool
    ensures { IsTrue result ↔ (map (λ word. word.now) words.now ≡ text.now ∷ []) }
{
    match words.split_first() {
        Some((word, rest)) => *word == text && rest.is_empty(),
        None => false,
    }
}

/// Whether no word is left without the first `--`.
fn is_nothing(words: &[&str]) -> bool
    ensures { IsTrue result ↔ (without_dashes (map (λ word. word.now) words.now) ≡ []) }
{
    match words.split_first() {
        Some((word, rest)) => *word == "--" && rest.is_empty(),
        None => true,
    }
}

/// Whether the words ask for a form. The first `--` is dropped, wherever it stands.
fn ask(words: &[&str], form: &str) -> bool
    ensures { IsTrue result ↔ Asks form.now (map (λ word. word.now) words.now) }
{
    match words.split_first() {
        Some((word, rest)) if *word == "--" => is_only(rest, form),
        Some((word, rest)) => *word == form && is_nothing(rest),
        None => false,
    }
}

/// Does what the program's words ask for: a trace (`IsTraceEnd` in `specs/Ends.antt`), a run of a core
/// (`IsCmsEnd` in `specs/CmsEnds.antt`), which hands out no board, or, where they are none of the forms,
/// the usage line (`IsUsageEnd` in `specs/Ends.antt`), and then the source is not touched.
pub fn run_words<S: Source, K: Sink>(
    alloc: Global,
    words: &[&str],
    source: &mut S,
    sink: &mut K,
) -> TraceEnd
    ensures trace { AskTrace (map (λ word. word.now) words.now) → IsTraceEnd
        (seen S.left S.faults K.held K.faults source.old sink.old)
        (seen S.left S.faults K.held K.faults source.new sink.new) result.status result.board }
    ensures cms { AskCms (map (λ word. word.now) words.now) → IsCmsEnd
        (seen S.left S.faults K.held K.faults source.old sink.old)
        (seen S.left S.faults K.held K.faults source.new sink.new) result.status }
    ensures no_board { AskCms (map (λ word. word.now) words.now) → result.board ≡ None }
    ensures usage { (AskTrace (map (λ word. word.now) words.now) → ⊥) → (AskCms (map (λ word. word.now) words.now) → ⊥) → IsUsageEnd
        (seen S.left S.faults K.held K.faults source.old sink.old)
        (seen S.left S.faults K.held K.faults source.new sink.new) result.status result.board }
    ensures unread { (AskTrace (map (λ word. word.now) words.now) → ⊥) → (AskCms (map (λ word. word.now) words.now) → ⊥)
        → source.new ≡ source.old }
    ensures flushed { result.status ≡ Status.Ok → K.is_flushed sink.new }
    ensures untouched { IsSilent result.status → sink.new ≡ sink.old }
{
    if ask(words, "trace") {
        return run_trace(alloc, source, sink);
    }
    if ask(words, "cms") {
        return TraceEnd {
            status: run_cms(alloc, source, sink),
            board: None,
        };
    }
    write_text(sink, b"usage: kn_run trace | run | gen N | cms\n");
    TraceEnd {
        status: Status::Usage,
        board: None,
    }
}
