use crate::FixedPage;
use kn_base::Span;
use kn_ranges::Ranges;
use std::test::Fail;

const FRAME: Span = Span { start: 1, len: 7 };

const FIRST: Span = Span { start: 1, len: 3 };

const SECOND: Span = Span { start: 4, len: 3 };

const LEFT_OVER: Span = Span { start: 7, len: 1 };

#[test]
fn cells_are_taken_from_the_front(rt: HostRuntime) -> Result<(), Fail> {
    let mut page = FixedPage::open(rt.alloc(), FRAME, 3)?;
    assert!(rt; page.take() == Some(FIRST));
    assert!(rt; page.take() == Some(SECOND));
    assert!(rt; page.take() == None);
    assert!(rt; page.spans() == [LEFT_OVER].as_slice());
    assert!(rt; page.free_words() == 1);
    page.release(FIRST);
    assert!(rt; page.take() == Some(FIRST));
    let whole = Ranges::open(rt.alloc(), FRAME, 1)?;
    page.reset(&whole);
    assert!(rt; page.spans() == [FRAME].as_slice());
    Ok(())
}

#[test]
fn a_free_page_changes_its_cells(rt: HostRuntime) -> Result<(), Fail> {
    let mut page = FixedPage::open(rt.alloc(), FRAME, 2)?;
    page.reclass(32);
    assert!(rt; page.words() == 32);
    let page = FixedPage::over(page.into_ranges(), FRAME, 5);
    assert!(rt; page.frame() == FRAME);
    assert!(rt; page.spans() == [FRAME].as_slice());
    Ok(())
}
