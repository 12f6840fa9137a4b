ghost use Rattle.std.specs.Prelude.{◌≡◌, ℕ, ◌≤◌};
ghost use Rattle.kn_base.specs.Sizes.{IsGood};
ghost use Rattle.kn_graph.specs.Arguments.{IsInRange};
ghost use Rattle.kn_graph.specs.Ground.{IsGoodGround};
ghost use Rattle.kn_rule.specs.Requests.{area_count, area_from, class_for, is_too_long};

use kn_base::{MOST_CELL, NEXT_FIT_CLASS, SINGLE_CLASS, Sizes};
use kn_graph::Call;
use kn_layout::{Layout, cell_words};

/// The words of the cell that a call asks for, or `None` where it asks for none.
pub fn words_asked(sizes: &Sizes, layouts: &[Layout], call: &Call) -> Option<u32>
    requires good { IsGoodGround (record { sizes = sizes.now; layouts = layouts.now }) }
    requires fits { IsInRange (record { sizes = sizes.now; layouts = layouts.now }) call.now }
    ensures { result ≡ Rattle.kn_rule.specs.Requests.words_asked (record { sizes = sizes.now; layouts = layouts.now }) call.now }
{
    match *call {
        Call::New(_, layout) => Some(cell_words(&layouts[usize::from(layout)], 0)),
        Call::NewArray(_, layout, length) => {
            let layout = &layouts[usize::from(layout)];
            Some(cell_words(layout, length))
        }
        _ => None,
    }
}

/// The class of the cells for an object of so many words: fixed ones where they are short enough,
/// next-fit ones where they fit a small frame, and else single ones.
pub fn class_of_words(sizes: &Sizes, words: u32) -> u16
    ensures { result ≡ class_for sizes.now words }
{
    if words <= u32::from(MOST_CELL) {
        words as u16
    } else if words <= sizes.small_words {
        NEXT_FIT_CLASS
    } else {
        SINGLE_CLASS
    }
}

/// The first frame of a class's area, and how many frames the area has.
pub fn area_of(sizes: &Sizes, class: u16) -> (u32, u32)
    requires { IsGood sizes.now }
    ensures first { result.0 ≡ area_from sizes.now class }
    ensures count { result.1 ≡ area_count sizes.now class }
{
    if class <= NEXT_FIT_CLASS {
        (0, sizes.small)
    } else if class == SINGLE_CLASS {
        (sizes.small, sizes.large)
    } else {
        (sizes.small + sizes.large, sizes.extra)
    }
}

/// Whether a cell of the class and of so many words is longer than a frame of its area, or the area
/// has no frame.
pub fn is_past_frames(sizes: &Sizes, class: u16, words: u32) -> bool
    requires { IsGood sizes.now }
    ensures { result ≡ is_too_long sizes.now class words }
{
    let longest = if class <= NEXT_FIT_CLASS {
        sizes.small_words
    } else if class == SINGLE_CLASS {
        sizes.large_words
    } else {
        sizes.extra_words
    };
    longest < words || area_of(sizes, class).1 == 0
}
