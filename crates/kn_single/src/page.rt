ghost use Rattle.std.specs.Prelude.{◌≡◌, ◌↔◌, ℕ, ◌<◌, ◌≤◌, ◌⊎◌, All, IfOk, IfSome, IsNone, IsTrue, MatchOption};
ghost use Rattle.kn_base.specs.Spans.{IsSpan};
ghost use Rattle.kn_base.specs.SpanLists.{IsFreeListOf, IsWhollyFree, free_word_count, front_of, put_in, without};
ghost use Rattle.kn_single.specs.SingleState.{HasTakenCell, IsTakenFront, LeavesOneCell, whole_single_page};

use kn_base::Span;
use kn_ranges::{Ranges, fronts_leave_rests};
use std::alloc::{AllocError, Global};
use std::marker::Model;

/// A page of the class `Single`.
///
/// Contracts see a record of the frame's span and the free spans in order
/// (`specs/SingleState.antt`). A `None` leaves the page as it was.
#[derive(Drop)]
pub struct SinglePage {
    frame: Span,
    free: Ranges,
}

impl Model for SinglePage {
    ghost use Rattle.kn_single.specs.SingleState.{IsSingle, SingleState};

    ghost Value = { SingleState };

    ghost view = { λ p. record { frame = p.frame; spans = p.free.spans } };

    ghost invariant = { λ p. IsSingle p.frame p.free };
}

impl SinglePage {
    /// A page over `span`, all free. An error is want of memory.
    pub fn open(alloc: Global, span: Span) -> Result<SinglePage, AllocError>
        requires { IsSpan span }
        ensures { IfOk result (λ page. page ≡ whole_single_page span) }
    {
        let free = Ranges::open_frame(alloc, span)?;
        Ok(SinglePage { frame: span, free })
    }

    /// Takes the first `n` words, or `None` where a cell was taken or the frame has fewer words.
    pub fn take(&mut self, n: u32) -> Option<Span>
        requires { 1 ≤ n }
        ensures none { IsNone result ↔ (HasTakenCell self.old ⊎ (self.old.frame.len < n)) }
        ensures unable { IsNone result
            ↔ ((¬ IsWhollyFree self.old.frame self.old.spans) ⊎ All (λ span. span.len < n) self.old.spans) }
        ensures whole { IfSome result (λ _. IsWhollyFree self.old.frame self.old.spans) }
        ensures taken { IfSome result (λ cell. cell ≡ front_of n self.old.frame) }
        ensures after { MatchOption result (self.new ≡ self.old)
            (λ cell. self.new ≡ record self.old { spans = without cell self.old.spans }) }
        ensures cell { IfSome result (IsTakenFront self.new) }
    {
        if self.has_cell() || n > self.frame.len {
            return None;
        }
        fronts_leave_rests();
        self.free.take_first(n)
    }

    /// Frees the taken cell.
    pub fn release(&mut self, cell: Span)
        requires { IsTakenFront self.old cell }
        ensures after { self.new ≡ record self.old { spans = put_in cell self.old.spans } }
        ensures whole { self.new ≡ whole_single_page self.old.frame }
    {
        self.free.put(cell);
    }

    /// Makes the free spans those of `free`.
    pub fn reset(&mut self, free: &Ranges)
        requires { LeavesOneCell self.old.frame free.now.spans }
        ensures { self.new ≡ record self.old { spans = free.now.spans } }
    {
        self.free.refill(free.spans());
    }

    /// The frame's span.
    pub fn frame(&self) -> Span
        ensures frame { result ≡ self.now.frame }
        ensures span { IsSpan result }
    {
        self.frame
    }

    /// The free spans: the frame, or what the taken cell leaves of it.
    pub fn spans(&self) -> &[Span]
        ensures spans { result.now ≡ self.now.spans }
        ensures free_list { IsFreeListOf self.now.frame self.now.spans }
        ensures one_cell { LeavesOneCell self.now.frame self.now.spans }
    {
        self.free.spans()
    }

    /// The words of all free spans.
    pub fn free_words(&self) -> u32
        ensures { result ≡ free_word_count self.now.spans }
    {
        self.free.free_words()
    }

    fn has_cell(&self) -> bool
        ensures { IsTrue result ↔ HasTakenCell self.now }
    {
        self.free.free_words() < self.frame.len
    }
}
