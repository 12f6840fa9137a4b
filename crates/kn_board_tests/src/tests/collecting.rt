//! Scripts with `gc`, which is no word of a script yet, and what is seen of their boards.
ghost use Rattle.std.specs.Prelude.{IfSome};
ghost use Rattle.kn_script.specs.Good.{IsGoodScript};
ghost use Rattle.kn_trace.specs.Runs.{AreBuilt};

use kn_base::{FrameNo, Place};
use kn_lines::{Built, TODAY};
use kn_script::read_script;
use kn_trace::trace;
use std::alloc::{AllocError, Global};

/// What is built today, and `gc`.
const WITH_COLLECT: Built = Built {
    calls: [
        true, true, true, true, true, true, true, true, true, true, true, false, false, false,
        false, false, false, false, false, false, false, true,
    ],
    ..TODAY
};

/// The script of a text that may have `gc` in it.
pub fn read(alloc: Global, text: &str) -> Option<kn_script::Script>
    ensures good { IfSome result IsGoodScript }
    ensures built { IfSome result (λ script. AreBuilt script.threads) }
{
    match read_script(alloc, &WITH_COLLECT, text.as_bytes()) {
        Ok(script) => Some(script),
        Err(_) => None,
    }
}

/// A script of two parts, between which the line of its turns stands.
pub type Script = (&'static str, &'static str);

/// What is seen of a board: the phase, the epoch wanted, the count of open work, the state of thread 0,
/// the word of its root set and the mark of the word at address 1; how many entries there are; and
/// whether the page of the first frame lies in its slot.
pub type Seen = ([u64; 6], usize, bool);

/// What is seen behind so many turns of a script.
fn seen(alloc: Global, script: Script, turns: u32) -> Result<Option<Seen>, AllocError> {
    let (before, behind) = script;
    let text = format!(in alloc; "{before}turns {turns}\n{behind}")?;
    let Some(script) = read(alloc, text.as_str()) else {
        return Ok(None);
    };
    let board = trace(alloc, &script)?.board;
    let words = [
        board.word(Place::Phase),
        board.word(Place::Want),
        board.word(Place::Pending),
        board.word(Place::State(0)),
        board.word(Place::RootSet(0)),
        board.word(Place::Side(1)),
    ];
    let is_home = board.page(FrameNo(0)).is_some();
    Ok(Some((words, board.history().len(), is_home)))
}

/// Whether a script shows what a table has of it, behind so many turns each.
pub fn are_seen(alloc: Global, script: Script, table: &[(u32, Seen)]) -> Result<bool, AllocError> {
    for (turns, wanted) in table {
        if seen(alloc, script, *turns)? != Some(*wanted) {
            return Ok(false);
        }
    }
    Ok(true)
}
