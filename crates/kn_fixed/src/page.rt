ghost use Rattle.std.specs.Prelude.{◌≡◌, ◌↔◌, ℕ, ◌<◌, ◌≤◌, All, IfOk, IfSome, IsNone, MatchOption};
ghost use Rattle.std.specs.Option.{option_map};
ghost use Rattle.kn_base.specs.Spans.{AreApart, IsSpan, LiesIn};
ghost use Rattle.kn_base.specs.declared.numbers.Span.{Span};
ghost use Rattle.kn_base.specs.Classes.{IsCellSize};
ghost use Rattle.kn_fixed.specs.FixedState.{whole_fixed_page};
ghost use Rattle.kn_ranges.specs.Cells.{IsOnCells, IsTakenCell, LeavesWholeCells};
ghost use Rattle.kn_ranges.specs.FreeSpans.{page_room};
ghost use Rattle.kn_base.specs.SpanLists.{IsFreeListOf, IsWhollyFree, first_fit, free_word_count, front_of, put_in, without};

use kn_base::Span;
use kn_ranges::{Ranges, cells_are_released, cells_are_taken, whole_cells_are_left};
use std::alloc::{AllocError, Global};
use std::marker::Model;

/// A page of cells of one size over a frame.
///
/// Contracts see a record of the frame's span, the words of a cell and the free spans in order
/// (`specs/FixedState.antt`). A `None` leaves the page as it was. Cells and what a list of free
/// spans leaves are defined in `kn_ranges`.
#[derive(Drop)]
pub struct FixedPage {
    frame: Span,
    words: u32,
    free: Ranges,
}

impl Model for FixedPage {
    ghost use Rattle.kn_fixed.specs.FixedState.{FixedState, IsFixed};

    ghost Value = { FixedState };

    ghost view = { λ p. record { frame = p.frame; words = p.words; spans = p.free.spans } };

    ghost invariant = { λ p. IsFixed p.frame p.words p.free };
}

impl FixedPage {
    /// A page over `span` with cells of `words` words, all free. An error is want of memory.
    pub fn open(alloc: Global, span: Span, words: u32) -> Result<FixedPage, AllocError>
        requires span { IsSpan span }
        requires size { IsCellSize words }
        ensures { IfOk result (λ page. page ≡ whole_fixed_page span words) }
    {
        let free = Ranges::open_frame(alloc, span)?;
        Ok(FixedPage {
            frame: span,
            words,
            free,
        })
    }

    /// The same over a list that holds `span` alone.
    pub fn over(ranges: Ranges, span: Span, words: u32) -> FixedPage
        requires span { IsSpan span }
        requires size { IsCellSize words }
        requires free { IsWhollyFree span ranges.spans }
        requires room { page_room span ≤ ranges.room }
        ensures { result ≡ whole_fixed_page span words }
    {
        FixedPage {
            frame: span,
            words,
            free: ranges,
        }
    }

    /// The page's list of free spans.
    pub fn into_ranges(self) -> Ranges
        ensures spans { result.spans ≡ self.spans }
        ensures room { page_room self.frame ≤ result.room }
    {
        self.free
    }

    /// Sets the words of a cell.
    pub fn reclass(&mut self, words: u32)
        requires free { IsWhollyFree self.old.frame self.old.spans }
        requires size { IsCellSize words }
        ensures { self.new ≡ record self.old { words = words } }
    {
        self.words = words;
    }

    /// Takes the first cell of the first free span that has room for one, or `None` where no free
    /// span has. Cells that were taken before stay taken.
    pub fn take(&mut self) -> Option<Span>
        ensures none { IsNone result ↔ All (λ span. span.len < self.old.words) self.old.spans }
        ensures taken { result ≡ option_map (front_of self.old.words) (first_fit self.old.words self.old.spans) }
        ensures after { MatchOption result (self.new ≡ self.old)
            (λ cell. self.new ≡ record self.old { spans = without cell self.old.spans }) }
        ensures cell { IfSome result (IsTakenCell self.new.frame self.new.words self.new.spans) }
        ensures size { IsCellSize self.old.words }
        ensures others { (other : Span) → IsTakenCell self.old.frame self.old.words self.old.spans other
            → IsTakenCell self.new.frame self.new.words self.new.spans other × IfSome result (AreApart other) }
    {
        cells_are_taken();
        self.free.take_first(self.words)
    }

    /// Frees a taken cell. Other cells stay taken.
    pub fn release(&mut self, cell: Span)
        requires { IsTakenCell self.old.frame self.old.words self.old.spans cell }
        ensures after { self.new ≡ record self.old { spans = put_in cell self.old.spans } }
        ensures others { (other : Span) → AreApart other cell
            → IsTakenCell self.old.frame self.old.words self.old.spans other
            → IsTakenCell self.new.frame self.new.words self.new.spans other }
    {
        cells_are_released();
        self.free.put(cell);
    }

    /// Makes the free spans those of `free`.
    pub fn reset(&mut self, free: &Ranges)
        requires within { All (λ span. LiesIn span self.old.frame) free.now.spans }
        requires cells { LeavesWholeCells self.old.frame self.old.words free.now.spans }
        ensures { self.new ≡ record self.old { spans = free.now.spans } }
    {
        whole_cells_are_left();
        self.free.refill(free.spans());
    }

    /// The frame's span.
    pub fn frame(&self) -> Span
        ensures frame { result ≡ self.now.frame }
        ensures span { IsSpan result }
    {
        self.frame
    }

    /// The words of a cell.
    pub fn words(&self) -> u32
        ensures words { result ≡ self.now.words }
        ensures size { IsCellSize result }
    {
        self.words
    }

    /// The free spans, sorted by their starts. None touches another, and each begins with a cell.
    pub fn spans(&self) -> &[Span]
        ensures spans { result.now ≡ self.now.spans }
        ensures free_list { IsFreeListOf self.now.frame self.now.spans }
        ensures cells { All (IsOnCells self.now.frame self.now.words) self.now.spans }
    {
        self.free.spans()
    }

    /// The words of all free spans.
    pub fn free_words(&self) -> u32
        ensures { result ≡ free_word_count self.now.spans }
    {
        self.free.free_words()
    }
}
