//! The hints of a marker: addresses of objects that became gray.
ghost use Rattle.std.specs.Prelude.{◌≡◌, None, []};
ghost use Rattle.kn_mark.specs.Kept.{Kept};
ghost use Rattle.kn_mark.specs.Steps;

use crate::marker::MOST_HINTS;
use crate::next::Next;
use arrayvec::ArrayVec;

/// The last hint.
#[inline(always)]
pub(crate) fn last_of(hints: &[u32]) -> Option<u32>
    ensures value { result ≡ Steps.last_of hints.now }
    ensures none { result ≡ None → hints.now ≡ [] }
{
    if hints.is_empty() {
        None
    } else {
        Some(hints[hints.len() - 1])
    }
}

/// The hints behind a step that found a word.
#[inline(always)]
pub(crate) fn learn_hints(
    hints: &mut ArrayVec<u32, 64>,
    next: Next,
    word: u64,
    epoch: u32,
    cursor: u32,
)
    ensures { (k : Kept) → k.hints ≡ hints.old.items → k.work.epoch ≡ epoch → k.cursor ≡ cursor →
        hints.new.items ≡ Steps.hints_behind k next word }
{
    match next {
        Next::Grays(child, mark) => {
            if word == mark {
                keep_hint(hints, child);
            }
        }
        Next::TakesUp(_) => {
            hints.pop();
        }
        Next::Searches(_) => {
            if word == 4 * u64::from(epoch) + 1 {
                keep_hint(hints, cursor);
            }
        }
        _ => {}
    }
}

// One hint more, where there is room.
#[inline(always)]
fn keep_hint(hints: &mut ArrayVec<u32, 64>, object: u32)
    ensures { hints.new.items ≡ Steps.with_hint hints.old.items object }
{
    if hints.len() < MOST_HINTS {
        hints.push(object);
    }
}
