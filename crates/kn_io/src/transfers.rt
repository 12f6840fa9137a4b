ghost use Rattle.std.specs.Prelude.{◌≡◌, ◌+◌, ◌-◌, ◌^◌, ◌<◌, ◌≤◌, ◌++◌, length, vec_len};
ghost use Rattle.std.specs.Prelude.{IsErr, IfSome, IfOk, OnOk, OnErr, IfErr};
ghost use Rattle.kn_io.specs.Counts.{NeverFalls, Rose};
ghost use Rattle.kn_io.specs.Told.{GivesAtMost, GivesAll, Appends, AppendsPrefix};
ghost use Rattle.kn_io.specs.Ends.{most_given, OnFailed, UnlessFailed, IfTooLong, PassesLimit};

use crate::devices::{Failed, Sink, Source};
use kn_base::line_after;
use std::alloc::Global;
use thiserror::Error;

/// Why a read to the end did not come to it.
#[derive(Clone, Copy, Debug, Error)]
pub enum ReadEnd {
    #[error("the source failed")]
    Failed,
    #[error("line {line}: too much came")]
    TooLong { line: u32 },
    #[error("out of memory")]
    Memory,
}

/// The most bytes that `read_all` asks for in one read.
pub const BUFFER: usize = 8192;

/// Puts a piece behind a text, where both together keep to the limit.
fn keep(text: &mut Vec<u8>, piece: &[u8], limit: u32) -> Result<(), ReadEnd>
    requires limit { limit < 2 ^ 32 - 1 }
    requires within { vec_len text.old ≤ limit }
    requires piece { length piece.now ≤ BUFFER }
    ensures kept { OnOk result (text.new.items ≡ text.old.items ++ piece.now) }
    ensures within { OnOk result (vec_len text.new ≤ limit) }
    ensures more { OnOk result (vec_len text.new ≡ vec_len text.old + length piece.now) }
    ensures too_long { IfErr result (λ end. IfTooLong end (λ line.
        PassesLimit limit (text.old.items ++ piece.now) line)) }
    ensures most { IfErr result (λ end.
        length (text.old.items ++ piece.now) ≤ most_given limit end) }
    ensures never_failed { IfErr result (λ end. OnFailed end ⊥) }
{
    let room = limit as usize - text.len();
    if piece.len() > room {
        let line = line_after(text) + (line_after(&piece[..room]) - 1);
        return Err(ReadEnd::TooLong { line });
    }
    match text.extend_from_slice(piece) {
        Ok(()) => Ok(()),
        Err(_) => Err(ReadEnd::Memory),
    }
}

/// All bytes that the source gives, up to its end. At most `limit` of them are kept.
///
/// The answer is `TooLong` where a byte past `limit` comes. Its line is the one that the bytes up
/// to `limit` have reached: 1, and 1 more for each line feed among them. With each answer that is
/// not Ok at most `limit` bytes were taken from the source, and with `TooLong` at most `BUFFER`
/// more. An answer that is not `Failed` met no fault: the source's count of faults stayed.
pub fn read_all<S: Source>(alloc: Global, source: &mut S, limit: u32) -> Result<Vec<u8>, ReadEnd>
    requires { limit < 2 ^ 32 - 1 }
    ensures all { IfOk result (λ text.
        GivesAll (S.left source.old) (S.left source.new) text.items) }
    ensures within { IfOk result (λ text. length text.items ≤ limit) }

    // It is too long exactly where a byte past the limit came.
    ensures too_long { IfErr result (λ end. IfTooLong end (λ line.
        IfSome (S.left source.old) (λ bytes. PassesLimit limit bytes line))) }
    ensures longer_is_err { IfSome (S.left source.old) (λ bytes.
        limit < length bytes → IsErr result) }
    ensures line { IfErr result (λ end. IfTooLong end (λ line. (1 ≤ line) × (line ≤ limit + 1))) }
    ensures err_gives { IfErr result (λ end.
        GivesAtMost (most_given limit end) (S.left source.old) (S.left source.new)) }

    ensures ok_without_fault { OnOk result (S.faults source.new ≡ S.faults source.old) }
    ensures failed_only_where_rose { IfErr result (λ end. OnFailed end
        (Rose (S.faults source.old) (S.faults source.new))) }
    ensures other_without_fault { IfErr result (λ end. UnlessFailed end
        (S.faults source.new ≡ S.faults source.old)) }
    ensures count { NeverFalls (S.faults source.old) (S.faults source.new) }
{
    let mut text = Vec::new(alloc);
    let mut buffer = [0; BUFFER];
    loop {
        let n = match source.read(&mut buffer) {
            Ok(n) => n,
            Err(Failed) => return Err(ReadEnd::Failed),
        };
        if n == 0 {
            return Ok(text);
        }
        keep(&mut text, &buffer[..n], limit)?;
    }
}

/// Writes all bytes, and flushes. An answer of Ok met no fault: the sink's count of faults stayed.
pub fn write_all<K: Sink>(sink: &mut K, bytes: &[u8]) -> Result<(), Failed>
    ensures all { OnOk result (Appends (K.held sink.old) (K.held sink.new) bytes.now) }
    ensures flushed { OnOk result (K.is_flushed sink.new) }

    ensures failed_prefix { OnErr result
        (AppendsPrefix (K.held sink.old) (K.held sink.new) bytes.now) }
    ensures ok_without_fault { OnOk result (K.faults sink.new ≡ K.faults sink.old) }
    ensures failed_only_where_rose { OnErr result (Rose (K.faults sink.old) (K.faults sink.new)) }
    ensures count { NeverFalls (K.faults sink.old) (K.faults sink.new) }
{
    let mut done = 0;
    while done < bytes.len() {
        match sink.write(&bytes[done..]) {
            Ok(n) => done += n,
            Err(Failed) => return Err(Failed),
        }
    }
    sink.flush()
}
