//! What a graph lives on: the sizes of a heap and the layouts of its objects. Both are taken over
//! when a graph is opened, and no call changes them (`IsGoodGround` in `specs/Ground.antt`).

ghost use Rattle.std.specs.Prelude.{◌≡◌, ◌↔◌, ℕ, ◌+◌, ◌^◌, ◌<◌, ◌≤◌, Some, IfOk, IsTrue, [], ◌∷◌, slice_get};
ghost use Rattle.kn_graph.specs.Ground.{IsGoodGround};
ghost use Rattle.kn_base.specs.Spans.{LiesIn, end_of};
ghost use Rattle.kn_base.specs.Sizes.{span_of_frame};
ghost use Rattle.kn_base.specs.declared.numbers.Span.{Span};
ghost use Rattle.kn_graph.specs.Arguments.{AllFit, Fits, IsInRange};
ghost use Rattle.kn_graph.specs.Graph.{LiesInFrame, kinds_for, length_for};

use kn_base::{FrameNo, Sizes, Span};
use kn_graph::{ANY_NUMBER, Argument, CLEANER, Call, ELEMENTS, FIELD, LOCAL, SMALL_NUMBER};
use kn_layout::{FieldKind, Layout, kind_at};
use std::alloc::{AllocError, Global};
use std::marker::Model;

/// The sizes of a heap and the layouts of its objects. Contracts see the record `Ground` in
/// `specs/Ground.antt`.
#[derive(Drop)]
pub struct Ground {
    sizes: Sizes,
    layouts: Vec<Layout>,
}

impl Model for Ground {
    ghost use Rattle.kn_graph.specs.Ground.{Ground, IsGoodGround};

    ghost Value = { Ground };

    ghost view = { λ g. record { sizes = g.sizes; layouts = g.layouts.items } };

    ghost invariant = { λ g. IsGoodGround (record { sizes = g.sizes; layouts = g.layouts.items }) };
}

impl Ground {
    /// The sizes, and copies of the layouts. An error is want of memory.
    pub fn open(alloc: Global, sizes: &Sizes, layouts: &[Layout]) -> Result<Ground, AllocError>
        requires { IsGoodGround (record { sizes = sizes.now; layouts = layouts.now }) }
        ensures { IfOk result (λ made. made ≡ record { sizes = sizes.now; layouts = layouts.now }) }
    {
        let mut copies = Vec::new(alloc);
        for layout in layouts {
            let copy = layout.copy(alloc)?;
            copies.push(copy)?;
        }
        Ok(Ground {
            sizes: *sizes,
            layouts: copies,
        })
    }

    /// Whether a number may be this argument.
    fn fits(&self, argument: Argument, n: u64) -> bool
        ensures { IsTrue result ↔ Fits self.now argument n }
    {
        match argument {
            Argument::Number(greatest) => n <= greatest,
            Argument::FieldsLayout => matches!(
                self.layouts.get(n as usize),
                Some(Layout::Fields(_))
            ),
            Argument::ArrayLayout => matches!(self.layouts.get(n as usize), Some(Layout::Array(_))),
            Argument::Global => n < u64::from(self.sizes.globals),
            Argument::Stable => n < u64::from(self.sizes.stable),
            Argument::Weak => n < u64::from(self.sizes.weak),
            Argument::Back => n < u64::from(self.sizes.back),
        }
    }

    fn fit_two(&self, first: (Argument, u64), second: (Argument, u64)) -> bool
        ensures { IsTrue result ↔ AllFit self.now (first.0 ∷ second.0 ∷ []) (first.1 ∷ second.1 ∷ []) }
    {
        self.fits(first.0, first.1) && self.fits(second.0, second.1)
    }

    fn fit_three(
        &self,
        first: (Argument, u64),
        second: (Argument, u64),
        third: (Argument, u64),
    ) -> bool
        ensures { IsTrue result ↔ AllFit self.now (first.0 ∷ second.0 ∷ third.0 ∷ []) (first.1 ∷ second.1 ∷ third.1 ∷ []) }
    {
        self.fits(first.0, first.1) && self.fit_two(second, third)
    }

    fn fit_one(&self, argument: Argument, n: u8) -> bool
        ensures { IsTrue result ↔ AllFit self.now (argument ∷ []) (n ∷ []) }
    {
        self.fits(argument, u64::from(n))
    }

    fn fit_pair(&self, first: Argument, n: u8, second: Argument, m: u8) -> bool
        ensures { IsTrue result ↔ AllFit self.now (first ∷ second ∷ []) (n ∷ m ∷ []) }
    {
        self.fit_two((first, u64::from(n)), (second, u64::from(m)))
    }

    /// Whether all arguments of a call are in their ranges.
    pub fn is_in_range(&self, call: &Call) -> bool
        ensures { IsTrue result ↔ IsInRange self.now call.now }
    {
        match *call {
            Call::New(r, layout) => self.fit_pair(LOCAL, r, Argument::FieldsLayout, layout),
            Call::NewArray(r, layout, n) => self.fit_three(
                (LOCAL, u64::from(r)),
                (Argument::ArrayLayout, u64::from(layout)),
                (ELEMENTS, u64::from(n)),
            ),
            Call::Copy(r, s) => self.fit_pair(LOCAL, r, LOCAL, s),
            Call::Clear(r) => self.fit_one(LOCAL, r),
            Call::Same(r, s) => self.fit_pair(LOCAL, r, LOCAL, s),
            Call::Get(r, s, f) => self.fit_three(
                (LOCAL, u64::from(r)),
                (LOCAL, u64::from(s)),
                (FIELD, u64::from(f)),
            ),
            Call::Set(s, f, r) => self.fit_three(
                (LOCAL, u64::from(s)),
                (FIELD, u64::from(f)),
                (LOCAL, u64::from(r)),
            ),
            Call::Put(s, f, n) => {
                self.fit_three(
                    (LOCAL, u64::from(s)),
                    (FIELD, u64::from(f)),
                    (ANY_NUMBER, n),
                )
            }
            Call::Read(s, f) => self.fit_two((LOCAL, u64::from(s)), (FIELD, u64::from(f))),
            Call::GlobalSet(g, r) => self.fit_pair(Argument::Global, g, LOCAL, r),
            Call::GlobalGet(r, g) => self.fit_pair(LOCAL, r, Argument::Global, g),
            Call::Pin(h, r) => self.fit_pair(Argument::Stable, h, LOCAL, r),
            Call::Unpin(h) => self.fit_one(Argument::Stable, h),
            Call::StableGet(r, h) => self.fit_pair(LOCAL, r, Argument::Stable, h),
            Call::MakeWeak(w, r) => self.fit_pair(Argument::Weak, w, LOCAL, r),
            Call::WeakGet(r, w) => self.fit_pair(LOCAL, r, Argument::Weak, w),
            Call::MakeBack(b, r) => self.fit_pair(Argument::Back, b, LOCAL, r),
            Call::Retain(b) => self.fit_one(Argument::Back, b),
            Call::Release(b) => self.fit_one(Argument::Back, b),
            Call::BackGet(r, b) => self.fit_pair(LOCAL, r, Argument::Back, b),
            Call::Tie(r, c, n) => self.fit_three(
                (LOCAL, u64::from(r)),
                (CLEANER, u64::from(c)),
                (SMALL_NUMBER, u64::from(n)),
            ),
            Call::Collect => true,
        }
    }

    /// The number of threads.
    pub fn threads(&self) -> u32
        ensures is { result ≡ self.now.sizes.threads }
        ensures few { result ≤ 16 }
    {
        self.sizes.threads
    }

    /// The sizes.
    pub fn sizes(&self) -> &Sizes
        ensures is { result.now ≡ self.now.sizes }
        ensures good { IsGoodGround self.now }
    {
        &self.sizes
    }

    /// The kind of a field of an object of this layout and length; none past its last field, and
    /// where there is no such layout.
    pub fn kind(&self, layout: u8, length: u32, field: u32) -> Option<FieldKind>
        ensures { result ≡ slice_get (kinds_for (slice_get self.now.layouts layout) length) field }
    {
        match self.layouts.get(layout as usize) {
            Some(layout) => kind_at(layout, length, field),
            None => None,
        }
    }

    /// How many fields an object has that is born with this layout and length.
    pub fn length_for(&self, layout: u8, elements: u32) -> u32
        requires { elements ≤ 60000 }
        ensures is { result ≡ length_for self.now layout elements }
        ensures few { result ≤ 60000 }
    {
        match self.layouts.get(layout as usize) {
            Some(Layout::Fields(kinds)) => kinds.as_slice().len() as u32,
            Some(Layout::Array(_)) => elements,
            None => 0,
        }
    }

    /// The number of the small or large frame that has a word, where one has it.
    fn frame_of(&self, word: u32) -> u32
        ensures { (p : ℕ) (words : Span) → p < self.now.sizes.small + self.now.sizes.large
            → span_of_frame self.now.sizes p ≡ Some words → words.start ≤ word → word < end_of words → p ≡ result }
    {
        let sizes = &self.sizes;
        let place = word.saturating_sub(1);
        let small_area = sizes.small * sizes.small_words;
        if place < small_area {
            place / sizes.small_words
        } else {
            sizes.small + (place - small_area) / sizes.large_words
        }
    }

    /// Whether so many words from an address on lie in one small or large frame.
    pub fn is_in_frame(&self, start: u32, len: u32) -> bool
        requires { 0 < len }
        ensures is { IsTrue result ↔ LiesInFrame self.now.sizes (record { start = start; len = len }) }
        ensures small { IsTrue result → start + len < 2 ^ 32 }
    {
        let number = self.frame_of(start);
        if number >= self.sizes.small + self.sizes.large {
            return false;
        }
        match self.sizes.frame_span(FrameNo(number as u16)) {
            Some(words) => lies_in(Span { start, len }, words),
            None => false,
        }
    }
}

/// Whether the words of one span are words of another.
fn lies_in(inner: Span, outer: Span) -> bool
    ensures { IsTrue result ↔ LiesIn inner outer }
{
    let inner_end = u64::from(inner.start) + u64::from(inner.len);
    let outer_end = u64::from(outer.start) + u64::from(outer.len);
    outer.start <= inner.start && inner_end <= outer_end
}
