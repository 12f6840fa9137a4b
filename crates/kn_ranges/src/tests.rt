use crate::Ranges;
use kn_base::Span;
use std::test::Fail;

#[test]
fn first_words_are_taken(rt: HostRuntime) -> Result<(), Fail> {
    let mut ranges = Ranges::open_frame(rt.alloc(), Span::new(1, 4))?;
    assert!(rt; ranges.room() == 2);
    assert!(rt; ranges.take_first(5) == None);
    assert!(rt; ranges.take_first(4) == Some(Span::new(1, 4)));
    assert!(rt; ranges.spans().is_empty());
    Ok(())
}

#[test]
fn spans_are_joined(rt: HostRuntime) -> Result<(), Fail> {
    let mut ranges = Ranges::open(rt.alloc(), Span::new(10, 5), 3)?;
    ranges.put(Span::new(20, 5));
    ranges.put(Span::new(15, 5));
    assert!(rt; ranges.spans() == [Span::new(10, 15)].as_slice() && ranges.free_words() == 15);
    ranges.put(Span::new(40, 2));
    ranges.put(Span::new(30, 2));
    assert!(rt; ranges.take_first_from(11, 2) == Some(Span::new(30, 2)));
    let two = [Span::new(10, 15), Span::new(40, 2)];
    assert!(rt; ranges.spans() == two.as_slice());
    let mut copy = Ranges::open(rt.alloc(), Span::new(1, 1), 2)?;
    copy.refill(ranges.spans());
    assert!(rt; copy.spans() == two.as_slice());
    copy.clear();
    assert!(rt; copy.spans().is_empty());
    Ok(())
}

#[test]
fn spans_move_to_either_side(rt: HostRuntime) -> Result<(), Fail> {
    let mut ranges = Ranges::open(rt.alloc(), Span::new(50, 1), 5)?;
    ranges.put(Span::new(40, 1));
    ranges.put(Span::new(60, 1));
    ranges.put(Span::new(45, 1));
    ranges.put(Span::new(55, 1));
    let five = [
        Span::new(40, 1),
        Span::new(45, 1),
        Span::new(50, 1),
        Span::new(55, 1),
        Span::new(60, 1),
    ];
    assert!(rt; ranges.spans() == five.as_slice());
    assert!(rt; ranges.take_first_from(44, 1) == Some(Span::new(45, 1)));
    assert!(rt; ranges.take_first_from(51, 1) == Some(Span::new(55, 1)));
    assert!(rt; ranges.spans() == [five[0], five[2], five[4]].as_slice());
    Ok(())
}
