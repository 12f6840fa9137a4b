ghost use Rattle.std.specs.Prelude.{◌≡◌, ◌↔◌, ℕ, ◌<◌, ◌≤◌, All, IfOk, IfSome, IsNone, MatchOption, [], ◌∷◌, length};
ghost use Rattle.std.specs.Option.{option_map};
ghost use Rattle.kn_base.specs.Spans.{AreApart, IsSpan, LiesIn};
ghost use Rattle.kn_base.specs.declared.numbers.Span.{Span};
ghost use Rattle.kn_ranges.specs.FreeSpans.{HasRoomFor, page_room};
ghost use Rattle.kn_base.specs.SpanLists.{IsFreeList, IsFreeListOf, first_fit, free_word_count, front_of, put_in, spans_from, without};

use crate::edits::{cut_front, fit_place, put_span};
use crate::span_array::SpanArray;
use kn_base::Span;
use std::alloc::{AllocError, Global};
use std::marker::Model;

/// A sorted list of free spans with room for a fixed number of them.
///
/// Contracts see a record of the spans, in order, and the room (`specs/FreeSpans.antt`). What is
/// taken out of a list and put into it is defined in `kn_base` (`specs/SpanLists.antt`).
#[derive(Drop)]
pub struct Ranges {
    free: SpanArray,
}

impl Model for Ranges {
    ghost use Rattle.kn_base.specs.SpanLists.{IsFreeList};
    ghost use Rattle.kn_ranges.specs.FreeSpans.{FreeSpans};

    ghost Value = { FreeSpans };

    ghost view = { λ r. r.free };

    ghost invariant = { λ r. IsFreeList r.free.spans };
}

impl Ranges {
    /// A list that holds `span` alone, with room for `room` spans. An error is want of memory.
    pub fn open(alloc: Global, span: Span, room: u32) -> Result<Ranges, AllocError>
        requires span { IsSpan span }
        requires room { 1 ≤ room }
        ensures { IfOk result (λ ranges. ranges ≡ record { spans = span ∷ []; room = room }) }
    {
        let free = SpanArray::open(alloc, span, room)?;
        Ok(Ranges { free })
    }

    /// A list that holds a frame alone, with room for the free spans of a page over it (`page_room`
    /// in `specs/FreeSpans.antt`). An error is want of memory.
    pub fn open_frame(alloc: Global, frame: Span) -> Result<Ranges, AllocError>
        requires { IsSpan frame }
        ensures { IfOk result (λ ranges. ranges ≡ record { spans = frame ∷ []; room = page_room frame }) }
    {
        Ranges::open(alloc, frame, frame.len / 4 + 1)
    }

    /// Takes the first `n` words of the first span with at least `n`, or `None` where no span has
    /// as many.
    pub fn take_first(&mut self, n: u32) -> Option<Span>
        requires { 1 ≤ n }
        ensures none { IsNone result ↔ All (λ span. span.len < n) self.old.spans }
        ensures taken { result ≡ option_map (front_of n) (first_fit n self.old.spans) }
        ensures after { MatchOption result (self.new ≡ self.old)
            (λ cell. self.new ≡ record self.old { spans = without cell self.old.spans }) }
        ensures free_list { IsFreeList self.new.spans }
        ensures len { IfSome result (λ cell. cell.len ≡ n) }
        ensures apart { IfSome result (λ cell. All (AreApart cell) self.new.spans) }
        ensures within { (frame : Span) → IsFreeListOf frame self.old.spans
            → IsFreeListOf frame self.new.spans × IfSome result (λ cell. LiesIn cell frame) }
        ensures others { (other : Span) → 0 < other.len → All (AreApart other) self.old.spans
            → All (AreApart other) self.new.spans × IfSome result (AreApart other) }
    {
        self.take_first_from(0, n)
    }

    /// Takes the first `n` words of the first span that begins at or after `low` and has at least
    /// `n` words, or `None` where there is none.
    pub fn take_first_from(&mut self, low: u32, n: u32) -> Option<Span>
        requires { 1 ≤ n }
        ensures none { IsNone result ↔ All (λ span. span.len < n) (spans_from low self.old.spans) }
        ensures taken { result ≡ option_map (front_of n) (first_fit n (spans_from low self.old.spans)) }
        ensures after { MatchOption result (self.new ≡ self.old)
            (λ cell. self.new ≡ record self.old { spans = without cell self.old.spans }) }
        ensures free_list { IsFreeList self.new.spans }
        ensures len { IfSome result (λ cell. cell.len ≡ n) }
        ensures apart { IfSome result (λ cell. All (AreApart cell) self.new.spans) }
        ensures within { (frame : Span) → IsFreeListOf frame self.old.spans
            → IsFreeListOf frame self.new.spans × IfSome result (λ cell. LiesIn cell frame) }
        ensures others { (other : Span) → 0 < other.len → All (AreApart other) self.old.spans
            → All (AreApart other) self.new.spans × IfSome result (AreApart other) }
    {
        let spans = self.free.spans();
        let place = fit_place(spans, low, n);
        if place == spans.len() {
            return None;
        }
        Some(cut_front(&mut self.free, place, n))
    }

    /// Puts a span in, and joins it with those that it touches.
    pub fn put(&mut self, span: Span)
        requires span { IsSpan span }
        requires apart { All (AreApart span) self.old.spans }
        requires room { HasRoomFor self.old span }
        ensures after { self.new ≡ record self.old { spans = put_in span self.old.spans } }
        ensures free_list { IsFreeList self.new.spans }
        ensures within { (frame : Span) → LiesIn span frame → IsFreeListOf frame self.old.spans
            → IsFreeListOf frame self.new.spans }
        ensures others { (other : Span) → 0 < other.len → AreApart other span
            → All (AreApart other) self.old.spans → All (AreApart other) self.new.spans }
    {
        put_span(&mut self.free, span);
    }

    /// Takes all spans out.
    pub fn clear(&mut self)
        ensures { self.new ≡ record self.old { spans = [] } }
    {
        self.free.clear();
    }

    /// Makes the spans those of another list. The room stays.
    pub fn refill(&mut self, spans: &[Span])
        requires free_list { IsFreeList spans.now }
        requires room { length spans.now ≤ self.old.room }
        ensures { self.new ≡ record self.old { spans = spans.now } }
    {
        self.free.refill(spans);
    }

    /// The spans, sorted by their starts. None touches another.
    pub fn spans(&self) -> &[Span]
        ensures spans { result.now ≡ self.now.spans }
        ensures free_list { IsFreeList self.now.spans }
        ensures room { length self.now.spans ≤ self.now.room }
        ensures within { (frame : Span) → All (λ span. LiesIn span frame) self.now.spans
            → IsFreeListOf frame self.now.spans }
    {
        self.free.spans()
    }

    /// The words of all the spans.
    pub fn free_words(&self) -> u32
        ensures { result ≡ free_word_count self.now.spans }
    {
        let mut words = 0;
        for span in self.free.spans() {
            words += span.len;
        }
        words
    }

    /// How many spans there is room for. No call changes it.
    pub fn room(&self) -> u32
        ensures { result ≡ self.now.room }
    {
        self.free.room()
    }
}
