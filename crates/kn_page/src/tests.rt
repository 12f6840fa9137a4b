use crate::{Page, open_pages};
use kn_base::{FrameKind, FramePage, Sizes, Span};
use kn_extra::ExtraPage;
use kn_fixed::FixedPage;
use kn_nextfit::NextFitPage;
use kn_single::SinglePage;
use std::test::Fail;

const FRAME: Span = Span { start: 1, len: 64 };

#[test]
fn a_fixed_page_goes_home(rt: HostRuntime) -> Result<(), Fail> {
    let mut page = Page::Fixed(FixedPage::open(rt.alloc(), FRAME, 3)?);
    assert!(rt; page.home_kind() == FrameKind::Empty);
    let Page::Fixed(cells) = &mut page else {
        unreachable!();
    };
    for _ in 0..20 {
        cells.take().ok_or("no cell")?;
    }
    let last = cells.take().ok_or("no cell")?;
    assert!(rt; page.home_kind() == FrameKind::Used);
    assert!(rt; page.free_words() == 1);
    let Page::Fixed(cells) = &mut page else {
        unreachable!();
    };
    cells.release(last);
    assert!(rt; page.home_kind() == FrameKind::Ready);
    assert!(rt; page.free_words() == 4);
    Ok(())
}

#[test]
fn a_free_page_changes_its_class(rt: HostRuntime) -> Result<(), Fail> {
    let page = Page::NextFit(NextFitPage::open(rt.alloc(), FRAME)?);
    let page = page.remake(5);
    assert!(rt; page.class() == 5);
    let page = page.remake(33);
    assert!(rt; page.class() == 33);
    assert!(rt; page.frame() == FRAME);
    assert!(rt; page.cursor() == 1);
    assert!(rt; page.spans() == [FRAME].as_slice());
    Ok(())
}

#[test]
fn other_pages_go_home(rt: HostRuntime) -> Result<(), Fail> {
    let mut single = Page::Single(SinglePage::open(rt.alloc(), FRAME)?).remake(34);
    if let Page::Single(cells) = &mut single {
        cells.take(40).ok_or("no cell")?;
    }
    assert!(rt; single.free_words() == 24);
    assert!(rt; single.home_kind() == FrameKind::Used);
    let mut extra = Page::Extra(ExtraPage::open(rt.alloc(), FRAME)?).remake(35);
    if let Page::Extra(cells) = &mut extra {
        cells.take().ok_or("no cell")?;
    }
    assert!(rt; extra.free_words() == 62);
    assert!(rt; extra.home_kind() == FrameKind::Ready);
    Ok(())
}

const SIZES: Sizes = Sizes {
    small: 1,
    small_words: 64,
    large: 1,
    large_words: 128,
    extra: 1,
    extra_words: 16,
    globals: 0,
    stable: 0,
    weak: 0,
    back: 0,
    threads: 1,
    calls: [0; 16],
    births: [0; 16],
};

#[test]
fn each_frame_has_a_page(rt: HostRuntime) -> Result<(), Fail> {
    let pages = open_pages(rt.alloc(), &SIZES)?;
    assert!(rt; pages.len() == 3);
    let first = [(2, 1, 64), (34, 65, 128), (35, 193, 16)];
    for (page, (class, start, len)) in pages.iter().zip(first) {
        assert!(rt; page.class() == class);
        assert!(rt; page.frame() == Span { start, len });
        assert!(rt; page.home_kind() == FrameKind::Empty);
    }
    Ok(())
}
