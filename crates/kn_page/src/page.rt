ghost use Rattle.std.specs.Prelude.{◌≡◌, ◌↔◌, ℕ, ◌≤◌, Any, IsTrue};
ghost use Rattle.kn_base.specs.Pages.{IsWholePage, whole_view};
ghost use Rattle.kn_base.specs.Spans.{IsSpan};
ghost use Rattle.kn_page.specs.Classes.{HasRoom, IsSmallClass, ShareArea, least_request};
ghost use Rattle.kn_page.specs.PageViews.{page_view};
ghost use Rattle.kn_ranges.specs.FreeSpans.{page_room};
ghost use Rattle.kn_base.specs.SpanLists.{IsWhollyFree};

use kn_base::{FrameKind, FramePage, Home, NEXT_FIT_CLASS, PageClass, Span};
use kn_extra::{EXTRA_CELL, ExtraPage};
use kn_fixed::FixedPage;
use kn_nextfit::NextFitPage;
use kn_ranges::Ranges;
use kn_single::SinglePage;

/// A page of any class.
///
/// Contracts see a `FrameView` of `kn_base` by `page_view` (`specs/PageViews.antt`).
#[derive(Drop)]
pub enum Page {
    Fixed(FixedPage),
    NextFit(NextFitPage),
    Single(SinglePage),
    Extra(ExtraPage),
}

impl FramePage for Page {
    ghost use Rattle.kn_page.specs.PageViews.{page_view};

    ghost page = { page_view };

    fn frame(&self) -> Span {
        match self {
            Page::Fixed(page) => page.frame(),
            Page::NextFit(page) => page.frame(),
            Page::Single(page) => page.frame(),
            Page::Extra(page) => page.frame(),
        }
    }

    fn class(&self) -> u16 {
        match self {
            Page::Fixed(page) => page.words() as u16,
            Page::NextFit(_) => PageClass::NextFit.number(),
            Page::Single(_) => PageClass::Single.number(),
            Page::Extra(_) => PageClass::Extra.number(),
        }
    }

    fn free_words(&self) -> u32 {
        match self {
            Page::Fixed(page) => page.free_words(),
            Page::NextFit(page) => page.free_words(),
            Page::Single(page) => page.free_words(),
            Page::Extra(page) => page.free_words(),
        }
    }

    fn spans(&self) -> &[Span] {
        match self {
            Page::Fixed(page) => page.spans(),
            Page::NextFit(page) => page.spans(),
            Page::Single(page) => page.spans(),
            Page::Extra(page) => page.spans(),
        }
    }

    fn cursor(&self) -> u32 {
        match self {
            Page::Fixed(page) => page.frame().start,
            Page::NextFit(page) => page.cursor(),
            Page::Single(page) => page.frame().start,
            Page::Extra(page) => page.frame().start,
        }
    }
}

impl Home for Page {}

impl Page {
    /// The same frame as a wholly free page of this class, with the cursor at the frame's start.
    /// It takes no memory.
    pub fn remake(self, class: u16) -> Page
        requires free { IsWholePage (page_view self) }
        requires area { ShareArea (page_view self).class class }
        ensures { page_view result ≡ whole_view class (page_view self).frame }
    {
        let frame = self.frame();
        match self {
            Page::Fixed(page) => Page::of_small_frame(page.into_ranges(), frame, class),
            Page::NextFit(page) => Page::of_small_frame(page.into_ranges(), frame, class),
            Page::Single(page) => Page::Single(page),
            Page::Extra(page) => Page::Extra(page),
        }
    }

    /// What the frame of this page is to a search once the page lies in its slot: empty where it is
    /// wholly free, ready where it has room for its least request, and used otherwise. A page for a
    /// single object is never ready.
    pub fn home_kind(&self) -> FrameKind
        ensures empty { (result ≡ FrameKind.Empty) ↔ IsWholePage (page_view self.now) }
        ensures ready { (result ≡ FrameKind.Ready)
            ↔ ((¬ IsWholePage (page_view self.now)) × HasRoom (page_view self.now)) }
        ensures used { (result ≡ FrameKind.Used)
            ↔ ((¬ IsWholePage (page_view self.now)) × (¬ HasRoom (page_view self.now))) }
    {
        if self.is_wholly_free() {
            FrameKind::Empty
        } else if self.has_room() {
            FrameKind::Ready
        } else {
            FrameKind::Used
        }
    }

    fn is_wholly_free(&self) -> bool
        ensures { IsTrue result ↔ IsWholePage (page_view self.now) }
    {
        match self.spans() {
            [span] => *span == self.frame(),
            _ => false,
        }
    }

    fn has_room(&self) -> bool
        ensures { IsTrue result ↔ HasRoom (page_view self.now) }
    {
        match self {
            Page::Fixed(page) => has_span(page.spans(), page.words()),
            Page::NextFit(page) => has_span(page.spans(), u32::from(NEXT_FIT_CLASS)),
            Page::Single(_) => false,
            Page::Extra(page) => has_span(page.spans(), EXTRA_CELL),
        }
    }

    fn of_small_frame(ranges: Ranges, frame: Span, class: u16) -> Page
        requires span { IsSpan frame }
        requires free { IsWhollyFree frame ranges.spans }
        requires room { page_room frame ≤ ranges.room }
        requires class { IsSmallClass class }
        ensures { page_view result ≡ whole_view class frame }
    {
        if class == NEXT_FIT_CLASS {
            Page::NextFit(NextFitPage::over(ranges, frame))
        } else {
            Page::Fixed(FixedPage::over(ranges, frame, u32::from(class)))
        }
    }
}

fn has_span(spans: &[Span], words: u32) -> bool
    ensures { IsTrue result ↔ Any (λ span. words ≤ span.len) spans.now }
{
    spans.iter().any(|span| span.len >= words)
}
