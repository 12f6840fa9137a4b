ghost use Rattle.std.specs.Prelude.{◌≡◌, ℕ, ◌<◌, IfOk, Some};
ghost use Rattle.kn_base.specs.Pages.{whole_view};
ghost use Rattle.kn_base.specs.Sizes.{IsGood, frame_count, span_of_frame};
ghost use Rattle.kn_base.specs.Spans.{IsSpan};
ghost use Rattle.kn_page.specs.Opened.{AreFirstPages, first_class};
ghost use Rattle.kn_page.specs.PageViews.{page_view};

use crate::page::Page;
use kn_base::{FrameNo, LEAST_CELL, Sizes, Span, frames_lie};
use kn_extra::ExtraPage;
use kn_fixed::FixedPage;
use kn_single::SinglePage;
use std::alloc::{AllocError, Global};

/// One wholly free page for each frame. Each has room for the free spans of any class of its area,
/// so that no later call takes memory. An error is want of memory.
pub fn open_pages(alloc: Global, sizes: &Sizes) -> Result<Vec<Page>, AllocError>
    requires { IsGood sizes.now }
    ensures { IfOk result (λ pages. AreFirstPages sizes.now pages.items) }
{
    frames_lie();
    let mut pages = Vec::new(alloc);
    for number in 0..sizes.frames() {
        let span = frame_span(sizes, number);
        pages.push(open_page(alloc, sizes, number, span)?)?;
    }
    Ok(pages)
}

fn frame_span(sizes: &Sizes, number: u32) -> Span
    requires sizes { IsGood sizes.now }
    requires number { number < frame_count sizes.now }
    ensures frame { span_of_frame sizes.now number ≡ Some result }
    ensures span { IsSpan result }
{
    sizes.frame_span(FrameNo(number as u16)).unwrap()
}

fn open_page(alloc: Global, sizes: &Sizes, number: u32, span: Span) -> Result<Page, AllocError>
    requires sizes { IsGood sizes.now }
    requires span { IsSpan span }
    ensures { IfOk result (λ page. page_view page ≡ whole_view (first_class sizes.now number) span) }
{
    if number < sizes.small {
        Ok(Page::Fixed(FixedPage::open(alloc, span, u32::from(LEAST_CELL))?))
    } else if number < sizes.small + sizes.large {
        Ok(Page::Single(SinglePage::open(alloc, span)?))
    } else {
        Ok(Page::Extra(ExtraPage::open(alloc, span)?))
    }
}
