mod whole;

use super::*;
use whole::{Whole, free_end};

const SIZES: Sizes = Sizes {
    small: 1,
    small_words: 64,
    large: 2,
    large_words: 128,
    extra: 1,
    extra_words: 16,
    globals: 0,
    stable: 0,
    weak: 0,
    back: 0,
    threads: 1,
    calls: [0; 16],
    births: [0; 16],
};

#[test]
fn frames_lie_in_order(rt: HostRuntime) {
    assert!(rt; SIZES.heap_words() == 336 && SIZES.frames() == 4);
    let frames = [
        (0, Some(Span::new(1, 64))),
        (1, Some(Span::new(65, 128))),
        (2, Some(Span::new(193, 128))),
        (3, Some(Span::new(321, 16))),
        (4, None),
    ];
    for (number, frame) in frames {
        assert!(rt; SIZES.frame_span(FrameNo(number)) == frame);
    }
}

#[test]
fn words_are_packed_and_read(rt: HostRuntime) {
    let weak = PhaseWord {
        epoch: 3,
        code: Code::Weak,
    };
    assert!(rt; weak.pack() == 27 && PhaseWord::unpack(27) == Some(weak));
    let black = MarkWord {
        epoch: 3,
        colour: Colour::Black,
    };
    assert!(rt; black.pack() == 15 && MarkWord::unpack(15) == Some(black));
    let header = HeaderWord {
        layout: 2,
        length: 5,
        extra: 9,
    };
    assert!(rt; header.pack() == 562_950_037_307_401);
    assert!(rt; HeaderWord::unpack(562_950_037_307_401) == Some(header));
    let owned = FrameWord {
        kind: FrameKind::Owned,
        class: 3,
        stamp: 1,
        seat: 2,
    };
    assert!(rt; owned.pack() == 360_291_268_724_523_266);
    assert!(rt; FrameWord::unpack(360_291_268_724_523_266) == Some(owned));
    let back = NodeWord {
        kind: NodeKind::Back,
        count: 3,
        addr: 65,
    };
    assert!(rt; back.pack() == 216_172_794_998_685_761);
    assert!(rt; NodeWord::unpack(216_172_794_998_685_761) == Some(back));
}

#[test]
fn classes_have_numbers(rt: HostRuntime) {
    let classes = [
        (0, None),
        (1, None),
        (2, Some(PageClass::Fixed(2))),
        (32, Some(PageClass::Fixed(32))),
        (33, Some(PageClass::NextFit)),
        (34, Some(PageClass::Single)),
        (35, Some(PageClass::Extra)),
        (36, None),
    ];
    for (number, class) in classes {
        assert!(rt; PageClass::of_number(number) == class);
    }
    assert!(rt; PageClass::Extra.number() == 35);
}

#[test]
fn lines_are_counted(rt: HostRuntime) {
    assert!(rt; line_after(b"") == 1);
    assert!(rt; line_after(b"a\n\nb") == 3);
}

#[test]
fn a_page_tells_its_frame(rt: HostRuntime) {
    let page = Whole {
        free: [Span::new(321, 16)],
    };
    assert!(rt; page.frame().end() == 337 && page.frame().front(2) == Span::new(321, 2));
    assert!(rt; page.class() == 0 && page.cursor() == 321);
    assert!(rt; free_end(&page) == Some(337));
}
