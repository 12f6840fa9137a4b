use super::*;
use kn_base::{FrameKind, FrameWord, Place, Sizes};

const SIZES: Sizes = Sizes {
    small: 1,
    small_words: 64,
    large: 0,
    large_words: 64,
    extra: 1,
    extra_words: 16,
    globals: 2,
    stable: 1,
    weak: 0,
    back: 0,
    threads: 1,
    calls: [0; 16],
    births: [0; 16],
};

#[test]
fn words_lie_in_order(rt: HostRuntime) {
    assert!(rt; table_length(&SIZES) == 191);
    let places = [
        (Place::Phase, 0),
        (Place::Pending, 2),
        (Place::State(1), 4),
        (Place::RootSet(2), 7),
        (Place::Local(0, 15), 23),
        (Place::Global(1), 25),
        (Place::Node(0), 26),
        (Place::Frame(1), 28),
        (Place::Side(80), 109),
        (Place::Body(80), 190),
    ];
    for (place, index) in places {
        assert!(rt; place_index(&SIZES, place) == index);
    }
}

#[test]
fn requests_have_classes(rt: HostRuntime) {
    for (words, class) in [(2, 2), (32, 32), (33, 33), (64, 33), (65, 34)] {
        assert!(rt; class_of_words(&SIZES, words) == class);
    }
    for (class, words, past) in [
        (33, 64, false),
        (33, 65, true),
        (34, 64, true),
        (35, 2, false),
    ] {
        assert!(rt; is_past_frames(&SIZES, class, words) == past);
    }
    assert!(rt; area_of(&SIZES, 35) == (1, 1));
}

#[test]
fn ready_frames_serve_their_class(rt: HostRuntime) {
    let word = FrameWord {
        kind: FrameKind::Ready,
        class: 3,
        stamp: 1,
        seat: 0,
    }
    .pack();
    assert!(rt; is_usable(3, word) && !is_usable(4, word));
}
