use crate::NextFitPage;
use kn_base::Span;
use kn_ranges::Ranges;
use std::test::Fail;

const FRAME: Span = Span { start: 1, len: 128 };

const FIRST: Span = Span { start: 1, len: 40 };

const SECOND: Span = Span { start: 41, len: 38 };

const THIRD: Span = Span { start: 79, len: 50 };

#[test]
fn requests_go_round_the_frame(rt: HostRuntime) -> Result<(), Fail> {
    let mut page = NextFitPage::open(rt.alloc(), FRAME)?;
    assert!(rt; page.take(40) == Some(FIRST));
    assert!(rt; page.take(38) == Some(SECOND));
    assert!(rt; page.take(50) == Some(THIRD));
    assert!(rt; page.take(33) == None);
    page.release(FIRST);
    page.release(THIRD);
    assert!(rt; page.take(51) == None);
    assert!(rt; page.cursor() == 129);
    assert!(rt; page.spans() == [FIRST, THIRD].as_slice());
    assert!(rt; page.take(45) == Some(Span { start: 79, len: 45 }));
    assert!(rt; page.spans() == [FIRST, Span { start: 124, len: 5 }].as_slice());
    assert!(rt; page.take(4) == Some(Span { start: 124, len: 4 }));
    assert!(rt; page.cursor() == 128);
    assert!(rt; page.free_words() == 41);
    Ok(())
}

#[test]
fn a_page_starts_again(rt: HostRuntime) -> Result<(), Fail> {
    let page = NextFitPage::open(rt.alloc(), FRAME)?;
    let mut page = NextFitPage::over(page.into_ranges(), FRAME);
    assert!(rt; page.frame() == FRAME);
    assert!(rt; page.take(128) == Some(FRAME));
    let swept = Ranges::open(rt.alloc(), THIRD, 1)?;
    page.reset(&swept);
    assert!(rt; page.cursor() == 1);
    assert!(rt; page.spans() == [THIRD].as_slice());
    assert!(rt; page.room() == 33);
    Ok(())
}
