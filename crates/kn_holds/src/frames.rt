//! What is stored of the frames that callers own: once for each frame.
ghost use Rattle.std.specs.Prelude.{◌≡◌, ◌<◌, ◌≤◌, ◌==◌, length, IfOk, Some, None, [], cond};
ghost use Rattle.kn_base.specs.Spans.{end_of};
ghost use Rattle.kn_base.specs.SpanLists.{IsFreeListOf, without};
ghost use Rattle.kn_base.specs.declared.numbers.Span.{Span};
ghost use Rattle.kn_base.specs.declared.classes.TheConstants.{NEXT_FIT_CLASS};
ghost use Rattle.kn_holds.specs.Holds.{IsCutOf};

use crate::free::{cut, no_spans};
use kn_base::{NEXT_FIT_CLASS, Span};
use kn_ranges::SpanArray;
use std::alloc::{AllocError, Global};
use std::marker::Model;

/// A frame's owner, and what the owner's view has of the frame.
#[derive(Drop)]
pub struct FrameHold {
    by: Option<u8>,
    word: u64,
    free: SpanArray,
    cursor: u32,
}

impl Model for FrameHold {
    ghost use Rattle.kn_holds.specs.Holds.{Hold};

    ghost Value = { Hold };

    ghost view = { λ h. record { by = h.by; word = h.word; free = h.free; cursor = h.cursor } };
}

impl FrameHold {
    /// A frame that nobody owns, with room for the free spans of so many words. An error is want of
    /// memory.
    pub fn open(alloc: Global, words: u32) -> Result<FrameHold, AllocError>
        requires { 1 ≤ words }
        ensures { IfOk result (λ h. h ≡ record { by = None; word = 0; free = record { spans = []; room = words }; cursor = 0 }) }
    {
        Ok(FrameHold {
            by: None,
            word: 0,
            free: no_spans(alloc, words)?,
            cursor: 0,
        })
    }

    /// The frame is claimed, with its page's free spans and cursor.
    pub fn claim(&mut self, by: u8, word: u64, spans: &[Span], cursor: u32)
        requires { length spans.now ≤ self.old.free.room }
        ensures { self.new ≡ record { by = Some by; word = word; free = record self.old.free { spans = spans.now }; cursor = cursor } }
    {
        self.by = Some(by);
        self.word = word;
        self.free.refill(spans);
        self.cursor = cursor;
    }

    /// The frame goes home.
    pub fn let_go(&mut self)
        ensures { self.new ≡ record self.old { by = None } }
    {
        self.by = None;
    }

    /// A cell of a class is taken from a frame that begins at `start`. A next-fit page looks for the next
    /// cell behind this one, and any other from the frame's start on.
    pub fn cut(&mut self, cell: Span, class: u16, start: u32)
        requires { IsCutOf self.old.free cell }
        ensures cut { self.new ≡ record self.old {
          free = record self.old.free { spans = without cell self.old.free.spans };
          cursor = cond (class == NEXT_FIT_CLASS) (end_of cell) start;
        } }
        ensures apart { (frame : Span) → IsFreeListOf frame self.old.free.spans → IsFreeListOf frame self.new.free.spans }
    {
        cut(&mut self.free, cell);
        self.cursor = if class == NEXT_FIT_CLASS {
            cell.end()
        } else {
            start
        };
    }

    /// The word of the owned frame.
    pub fn word(&self) -> u64
        ensures { result ≡ self.now.word }
    {
        self.word
    }

    /// The free spans.
    pub fn spans(&self) -> &[Span]
        ensures { result.now ≡ self.now.free.spans }
    {
        self.free.spans()
    }
}
