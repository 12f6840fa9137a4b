ghost use Rattle.std.specs.Prelude.{◌≡◌, ◌↔◌, ℕ, ◌<◌, ◌≤◌, All, IfOk, IfSome, IsNone, MatchOption, [], ◌∷◌, length};
ghost use Rattle.std.specs.Option.{option_map};
ghost use Rattle.kn_base.specs.Spans.{AreApart, IsSpan, LiesIn, end_of};
ghost use Rattle.kn_base.specs.declared.numbers.Span.{Span};
ghost use Rattle.kn_ranges.specs.FreeSpans.{page_room};
ghost use Rattle.kn_base.specs.SpanLists.{IsFreeListOf, IsWhollyFree, free_word_count, front_of, put_in, without};
ghost use Rattle.kn_nextfit.specs.NextFitState.{CanHold, HasRoomAfter, IsTakenSpan, next_fit, whole_next_fit_page};

use kn_base::Span;
use kn_ranges::{Ranges, puts_have_room};
use std::alloc::{AllocError, Global};
use std::marker::Model;

/// A page of the class `NextFit`.
///
/// Contracts see a record of the frame's span, the free spans in order, the cursor and the room
/// for free spans (`specs/NextFitState.antt`). A `None` leaves the page as it was.
#[derive(Drop)]
pub struct NextFitPage {
    frame: Span,
    free: Ranges,
    cursor: u32,
}

impl Model for NextFitPage {
    ghost use Rattle.kn_nextfit.specs.NextFitState.{IsNextFit, NextFitState};

    ghost Value = { NextFitState };

    ghost view = { λ p. record { frame = p.frame; spans = p.free.spans; cursor = p.cursor; room = p.free.room } };

    ghost invariant = { λ p. IsNextFit p.frame p.free };
}

impl NextFitPage {
    /// A page over `span`, all free. An error is want of memory.
    pub fn open(alloc: Global, span: Span) -> Result<NextFitPage, AllocError>
        requires { IsSpan span }
        ensures { IfOk result (λ page. page ≡ whole_next_fit_page span (page_room span)) }
    {
        let free = Ranges::open_frame(alloc, span)?;
        Ok(NextFitPage::over(free, span))
    }

    /// The same over a list that holds `span` alone.
    pub fn over(ranges: Ranges, span: Span) -> NextFitPage
        requires span { IsSpan span }
        requires free { IsWhollyFree span ranges.spans }
        requires room { page_room span ≤ ranges.room }
        ensures { result ≡ whole_next_fit_page span ranges.room }
    {
        NextFitPage {
            frame: span,
            free: ranges,
            cursor: span.start,
        }
    }

    /// The page's list of free spans.
    pub fn into_ranges(self) -> Ranges
        ensures spans { result ≡ record { spans = self.spans; room = self.room } }
        ensures room { page_room self.frame ≤ result.room }
    {
        let NextFitPage { free, .. } = self;
        free
    }

    /// Takes the first `n` words of the next span with as many, or `None` where no free span has.
    /// Words that were taken before stay taken.
    pub fn take(&mut self, n: u32) -> Option<Span>
        requires { 1 ≤ n }
        ensures none { IsNone result ↔ All (λ span. span.len < n) self.old.spans }
        ensures taken { result ≡ option_map (front_of n) (next_fit n self.old.cursor self.old.spans) }
        ensures after { MatchOption result (self.new ≡ self.old)
            (λ cell. self.new ≡ record self.old { spans = without cell self.old.spans; cursor = end_of cell }) }
        ensures cell { IfSome result (IsTakenSpan self.new) }
        ensures others { (other : Span) → IsTakenSpan self.old other
            → IsTakenSpan self.new other × IfSome result (AreApart other) }
    {
        let cell = take_next(&mut self.free, self.cursor, n)?;
        self.cursor = cell.start + cell.len;
        Some(cell)
    }

    /// Frees taken words. Others stay taken, and the cursor stays.
    pub fn release(&mut self, cell: Span)
        requires cell { IsTakenSpan self.old cell }
        requires room { HasRoomAfter self.old cell }
        ensures after { self.new ≡ record self.old { spans = put_in cell self.old.spans } }
        ensures others { (other : Span) → AreApart other cell → IsTakenSpan self.old other
            → IsTakenSpan self.new other }
    {
        puts_have_room();
        self.free.put(cell);
    }

    /// Makes the free spans those of `free`, and the cursor the frame's start.
    pub fn reset(&mut self, free: &Ranges)
        requires { CanHold self.old free.now.spans }
        ensures { self.new ≡ record self.old { spans = free.now.spans; cursor = self.old.frame.start } }
    {
        self.free.refill(free.spans());
        self.cursor = self.frame.start;
    }

    /// The frame's span.
    pub fn frame(&self) -> Span
        ensures frame { result ≡ self.now.frame }
        ensures span { IsSpan result }
    {
        self.frame
    }

    /// The free spans, sorted by their starts. None touches another.
    pub fn spans(&self) -> &[Span]
        ensures spans { result.now ≡ self.now.spans }
        ensures free_list { IsFreeListOf self.now.frame self.now.spans }
        ensures room { length self.now.spans ≤ self.now.room }
    {
        self.free.spans()
    }

    /// The words of all free spans.
    pub fn free_words(&self) -> u32
        ensures { result ≡ free_word_count self.now.spans }
    {
        self.free.free_words()
    }

    /// The address from which the next span is looked for.
    pub fn cursor(&self) -> u32
        ensures { result ≡ self.now.cursor }
    {
        self.cursor
    }

    /// How many free spans there is room for: at least as many as cells of 2 words ask for. No call
    /// changes it.
    pub fn room(&self) -> u32
        ensures room { result ≡ self.now.room }
        ensures enough { page_room self.now.frame ≤ result }
    {
        self.free.room()
    }
}

/// Takes the first `n` words of the next span with as many.
fn take_next(free: &mut Ranges, cursor: u32, n: u32) -> Option<Span>
    requires { 1 ≤ n }
    ensures none { IsNone result ↔ All (λ span. span.len < n) free.old.spans }
    ensures taken { result ≡ option_map (front_of n) (next_fit n cursor free.old.spans) }
    ensures after { MatchOption result (free.new ≡ free.old)
        (λ cell. free.new ≡ record free.old { spans = without cell free.old.spans }) }
    ensures len { IfSome result (λ cell. cell.len ≡ n) }
    ensures apart { IfSome result (λ cell. All (AreApart cell) free.new.spans) }
    ensures within { (frame : Span) → IsFreeListOf frame free.old.spans
        → IsFreeListOf frame free.new.spans × IfSome result (λ cell. LiesIn cell frame) }
    ensures others { (other : Span) → 0 < other.len → All (AreApart other) free.old.spans
        → All (AreApart other) free.new.spans × IfSome result (AreApart other) }
{
    if let Some(cell) = free.take_first_from(cursor, n) {
        return Some(cell);
    }
    free.take_first(n)
}
