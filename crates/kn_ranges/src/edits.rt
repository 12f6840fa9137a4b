ghost use Rattle.std.specs.Prelude.{◌≡◌, ◌↔◌, ℕ, ◌+◌, ◌-◌, ◌<◌, ◌≤◌, ◌⊎◌, ◌++◌, All, IsTrue, take, drop, length};
ghost use Rattle.std.specs.List.{AllByRecursion, HoldsAt};
ghost use Rattle.kn_base.specs.SpanLists.{IsFreeList, front_of, put_in, words_between};
ghost use Rattle.kn_base.specs.Spans.{AreApart, IsSpan, end_of};
ghost use Rattle.kn_ranges.specs.FreeSpans.{HasRoomFor};

use crate::span_array::SpanArray;
use kn_base::Span;

/// The place of the first span that begins at or after an address, or the length.
fn first_from(spans: &[Span], low: u32) -> usize
    requires { IsFreeList spans.now }
    ensures within { result ≤ length spans.now }
    ensures before { AllByRecursion (λ span. span.start < low) (take result spans.now) }
    ensures behind { AllByRecursion (λ span. low ≤ span.start) (drop result spans.now) }
{
    if spans.is_empty() || spans[0].start >= low {
        return 0;
    }
    spans.partition_point(|span| span.start < low)
}

/// The place of the first span that begins at or after `low` and has `n` words, or the length.
pub fn fit_place(spans: &[Span], low: u32, n: u32) -> usize
    requires { IsFreeList spans.now }
    ensures within { result ≤ length spans.now }
    ensures passed { AllByRecursion (λ span. (span.start < low) ⊎ (span.len < n)) (take result spans.now) }
    ensures found { result < length spans.now → HoldsAt (λ span. (low ≤ span.start) × (n ≤ span.len)) spans.now result }
{
    for place in first_from(spans, low)..spans.len() {
        if spans[place].len >= n {
            return place;
        }
    }
    spans.len()
}

/// Takes the first `n` words of the span at `place`.
pub fn cut_front(spans: &mut SpanArray, place: usize, n: u32) -> Span
    requires place { place < length spans.old.spans }
    requires words { HoldsAt (λ span. n ≤ span.len) spans.old.spans place }
    requires ends { HoldsAt IsSpan spans.old.spans place }
    ensures taken { HoldsAt (λ span. result ≡ front_of n span) spans.old.spans place }
    ensures after { HoldsAt
        (λ span. spans.new.spans ≡ take place spans.old.spans
        ++ (words_between (span.start + n) (end_of span) ++ drop (place + 1) spans.old.spans))
        spans.old.spans place }
    ensures room { spans.new.room ≡ spans.old.room }
{
    let span = spans.spans()[place];
    if span.len == n {
        spans.remove(place);
    } else {
        spans.set(place, Span::new(span.start + n, span.len - n));
    }
    span.front(n)
}

/// Whether the span before `place` ends at `start`.
fn ends_at(spans: &[Span], place: usize, start: u32) -> bool
    requires place { place ≤ length spans.now }
    requires list { IsFreeList spans.now }
    ensures { IsTrue result
        ↔ ((0 < place) × HoldsAt (λ last. end_of last ≡ start) spans.now (place - 1)) }
{
    place > 0 && spans[place - 1].end() == start
}

/// Whether the span at `place` begins at `end`.
fn begins_at(spans: &[Span], place: usize, end: u32) -> bool
    ensures { IsTrue result
        ↔ ((place < length spans.now) × HoldsAt (λ next. next.start ≡ end) spans.now place) }
{
    place < spans.len() && spans[place].start == end
}

/// Puts a span in at its place, and joins it with those that it touches.
pub fn put_span(spans: &mut SpanArray, span: Span)
    requires list { IsFreeList spans.old.spans }
    requires span { IsSpan span }
    requires apart { All (AreApart span) spans.old.spans }
    requires room { HasRoomFor spans.old span }
    ensures { spans.new ≡ record spans.old { spans = put_in span spans.old.spans } }
{
    let list = spans.spans();
    let place = first_from(list, span.start);
    let joins_last = ends_at(list, place, span.start);
    let joins_next = begins_at(list, place, span.end());
    match (joins_last, joins_next) {
        (false, false) => spans.insert(place, span),
        (true, false) => {
            let last = list[place - 1];
            spans.set(place - 1, Span::new(last.start, last.len + span.len));
        }
        (false, true) => {
            let next = list[place];
            spans.set(place, Span::new(span.start, span.len + next.len));
        }
        (true, true) => {
            let last = list[place - 1];
            let next = list[place];
            spans.set(
                place - 1,
                Span::new(last.start, last.len + (span.len + next.len)),
            );
            spans.remove(place);
        }
    }
}
