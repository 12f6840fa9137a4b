use crate::SinglePage;
use kn_base::Span;
use kn_ranges::Ranges;
use std::test::Fail;

const FRAME: Span = Span { start: 65, len: 10 };

const CELL: Span = Span { start: 65, len: 4 };

const BEHIND: Span = Span { start: 69, len: 6 };

#[test]
fn gives_out_one_cell(rt: HostRuntime) -> Result<(), Fail> {
    let mut page = SinglePage::open(rt.alloc(), FRAME)?;
    assert!(rt; page.frame() == FRAME);
    assert!(rt; page.take(11) == None);
    assert!(rt; page.take(10) == Some(FRAME));
    assert!(rt; page.take(1) == None);
    page.release(FRAME);
    assert!(rt; page.take(4) == Some(CELL));
    assert!(rt; page.spans() == [BEHIND].as_slice());
    Ok(())
}

#[test]
fn takes_over_the_spans_of_a_sweep(rt: HostRuntime) -> Result<(), Fail> {
    let mut page = SinglePage::open(rt.alloc(), FRAME)?;
    let swept = Ranges::open(rt.alloc(), BEHIND, 3)?;
    page.reset(&swept);
    assert!(rt; page.free_words() == 6);
    assert!(rt; page.take(1) == None);
    Ok(())
}
