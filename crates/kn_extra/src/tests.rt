use crate::ExtraPage;
use kn_base::Span;
use kn_ranges::Ranges;
use std::test::Fail;

const FRAME: Span = Span { start: 100, len: 4 };

const FIRST: Span = Span { start: 100, len: 2 };

const SECOND: Span = Span { start: 102, len: 2 };

#[test]
fn cells_are_taken_from_the_front(rt: HostRuntime) -> Result<(), Fail> {
    let mut page = ExtraPage::open(rt.alloc(), FRAME)?;
    assert!(rt; page.frame() == FRAME);
    assert!(rt; page.take() == Some(FIRST));
    assert!(rt; page.take() == Some(SECOND));
    assert!(rt; page.take() == None);
    page.release(SECOND);
    assert!(rt; page.spans() == [SECOND].as_slice());
    assert!(rt; page.free_words() == 2);
    let whole = Ranges::open(rt.alloc(), FRAME, 1)?;
    page.reset(&whole);
    assert!(rt; page.spans() == [FRAME].as_slice());
    Ok(())
}
