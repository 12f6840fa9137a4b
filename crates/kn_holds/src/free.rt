//! Cells that are cut out of the free spans of a frame.
ghost use Rattle.std.specs.Prelude.{◌≡◌, ◌<◌, ◌≤◌, ◌+◌, IfOk, [], ◌∷◌, ◌++◌, drop, take, length};
ghost use Rattle.std.specs.List.{HoldsAt};
ghost use Rattle.kn_base.specs.Spans.{LiesIn};
ghost use Rattle.kn_base.specs.SpanLists.{IsFreeList, without};
ghost use Rattle.kn_holds.specs.Holds.{IsCutOf, LiesInOne, with_words};

use kn_base::Span;
use kn_ranges::SpanArray;
use std::alloc::{AllocError, Global};

/// No free span, with room for so many. An error is want of memory.
pub fn no_spans(alloc: Global, room: u32) -> Result<SpanArray, AllocError>
    requires { 1 ≤ room }
    ensures { IfOk result (λ free. free ≡ record { spans = []; room = room }) }
{
    let mut free = SpanArray::open(alloc, Span::new(0, 0), room)?;
    free.clear();
    Ok(free)
}

/// Takes the words of a cell out.
pub fn cut(free: &mut SpanArray, cell: Span)
    requires { IsCutOf free.old cell }
    ensures { free.new ≡ record free.old { spans = without cell free.old.spans } }
{
    let place = place_of(free.spans(), cell);
    let span = free.spans()[place];
    let left = Span::new(span.start, cell.start - span.start);
    let right = Span::new(cell.end(), span.end() - cell.end());
    leave(free, place, left, right);
}

// Leaves of the span at a place what stands in two others, which may have no word.
fn leave(free: &mut SpanArray, place: usize, left: Span, right: Span)
    requires place { place < length free.old.spans }
    requires room { length free.old.spans < free.old.room }
    ensures { free.new ≡ record free.old {
      spans = take place free.old.spans ++ (with_words (left ∷ right ∷ []) ++ drop (place + 1) free.old.spans);
    } }
{
    match (left.len > 0, right.len > 0) {
        (true, true) => {
            free.set(place, right);
            free.insert(place, left);
        }
        (true, false) => free.set(place, left),
        (false, true) => free.set(place, right),
        (false, false) => free.remove(place),
    }
}

/// The place of the span that a cell lies in.
fn place_of(spans: &[Span], cell: Span) -> usize
    requires list { IsFreeList spans.now }
    requires word { 0 < cell.len }
    requires inside { LiesInOne spans.now cell }
    ensures within { result < length spans.now }
    ensures inside { HoldsAt (LiesIn cell) spans.now result }
{
    if spans[0].end() > cell.start {
        return 0;
    }
    let end = cell.end();
    spans.partition_point(|span| span.start < end) - 1
}
