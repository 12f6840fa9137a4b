ghost use Rattle.std.specs.Prelude.{◌≡◌, ◌↔◌, ℕ, ◌<◌, ◌≤◌, All, IfOk, IfSome, IsNone, MatchOption};
ghost use Rattle.std.specs.Option.{option_map};
ghost use Rattle.kn_base.specs.Spans.{AreApart, IsSpan, LiesIn};
ghost use Rattle.kn_base.specs.declared.numbers.Span.{Span};
ghost use Rattle.kn_extra.specs.ExtraState.{whole_extra_page};
ghost use Rattle.kn_ranges.specs.Cells.{IsOnCells, IsTakenCell, LeavesWholeCells};
ghost use Rattle.kn_base.specs.SpanLists.{IsFreeListOf, first_fit, free_word_count, front_of, put_in, without};

use kn_base::Span;
use kn_fixed::FixedPage;
use kn_ranges::Ranges;
use std::alloc::{AllocError, Global};
use std::marker::Model;

/// The number of words of an extra cell.
pub const EXTRA_CELL: u32 = 2;

/// A page of cells of `EXTRA_CELL` words over a frame.
///
/// Contracts see a record of the frame's span and the free spans in order
/// (`specs/ExtraState.antt`). A `None` leaves the page as it was. Cells and what a list of free
/// spans leaves are defined in `kn_ranges`.
#[derive(Drop)]
pub struct ExtraPage {
    cells: FixedPage,
}

impl Model for ExtraPage {
    ghost use Rattle.std.specs.Prelude.{◌≡◌};
    ghost use Rattle.kn_extra.specs.declared.page.TheConstants.{EXTRA_CELL};
    ghost use Rattle.kn_extra.specs.ExtraState.{ExtraState};

    ghost Value = { ExtraState };

    ghost view = { λ p. record { frame = p.cells.frame; spans = p.cells.spans } };

    ghost invariant = { λ p. p.cells.words ≡ EXTRA_CELL };
}

impl ExtraPage {
    /// A page over `span`, all free. An error is want of memory.
    pub fn open(alloc: Global, span: Span) -> Result<ExtraPage, AllocError>
        requires { IsSpan span }
        ensures { IfOk result (λ page. page ≡ whole_extra_page span) }
    {
        let cells = FixedPage::open(alloc, span, EXTRA_CELL)?;
        Ok(ExtraPage { cells })
    }

    /// Takes the first cell of the first free span that has room for one, or `None` where no free
    /// span has. Cells that were taken before stay taken.
    pub fn take(&mut self) -> Option<Span>
        ensures none { IsNone result ↔ All (λ span. span.len < EXTRA_CELL) self.old.spans }
        ensures taken { result ≡ option_map (front_of EXTRA_CELL) (first_fit EXTRA_CELL self.old.spans) }
        ensures after { MatchOption result (self.new ≡ self.old)
            (λ cell. self.new ≡ record self.old { spans = without cell self.old.spans }) }
        ensures cell { IfSome result (IsTakenCell self.new.frame EXTRA_CELL self.new.spans) }
        ensures others { (other : Span) → IsTakenCell self.old.frame EXTRA_CELL self.old.spans other
            → IsTakenCell self.new.frame EXTRA_CELL self.new.spans other × IfSome result (AreApart other) }
    {
        self.cells.take()
    }

    /// Frees a taken cell. Other cells stay taken.
    pub fn release(&mut self, cell: Span)
        requires { IsTakenCell self.old.frame EXTRA_CELL self.old.spans cell }
        ensures after { self.new ≡ record self.old { spans = put_in cell self.old.spans } }
        ensures others { (other : Span) → AreApart other cell
            → IsTakenCell self.old.frame EXTRA_CELL self.old.spans other
            → IsTakenCell self.new.frame EXTRA_CELL self.new.spans other }
    {
        self.cells.release(cell);
    }

    /// Makes the free spans those of `free`.
    pub fn reset(&mut self, free: &Ranges)
        requires within { All (λ span. LiesIn span self.old.frame) free.now.spans }
        requires cells { LeavesWholeCells self.old.frame EXTRA_CELL free.now.spans }
        ensures { self.new ≡ record self.old { spans = free.now.spans } }
    {
        self.cells.reset(free);
    }

    /// The frame's span.
    pub fn frame(&self) -> Span
        ensures frame { result ≡ self.now.frame }
        ensures span { IsSpan result }
    {
        self.cells.frame()
    }

    /// The free spans, sorted by their starts. None touches another, and each begins with a cell.
    pub fn spans(&self) -> &[Span]
        ensures spans { result.now ≡ self.now.spans }
        ensures free_list { IsFreeListOf self.now.frame self.now.spans }
        ensures cells { All (IsOnCells self.now.frame EXTRA_CELL) self.now.spans }
    {
        self.cells.spans()
    }

    /// The words of all free spans.
    pub fn free_words(&self) -> u32
        ensures { result ≡ free_word_count self.now.spans }
    {
        self.cells.free_words()
    }
}
