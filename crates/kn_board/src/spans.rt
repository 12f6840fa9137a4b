//! The words of frames.
ghost use Rattle.std.specs.Prelude.{◌≡◌, ◌<◌, ◌==◌, ℕ, cond, Option, Some, None};
ghost use Rattle.kn_base.specs.Sizes.{IsGood, frame_count};
ghost use Rattle.kn_base.specs.SpanLists.{HasWord};
ghost use Rattle.kn_rule.specs.FrameSpans.{frame_span, frame_at};

use kn_base::{FrameNo, Sizes, Span};

/// The words of a frame, and none past the last one.
pub fn span_of(sizes: &Sizes, frame: u16) -> Span
    requires { IsGood sizes.now }
    ensures { result ≡ frame_span sizes.now frame }
{
    match sizes.frame_span(FrameNo(frame)) {
        Some(span) => span,
        None => Span { start: 0, len: 0 },
    }
}

/// The frame that has the word at an address.
pub fn frame_with(sizes: &Sizes, address: u32) -> u16
    requires good { IsGood sizes.now }
    requires inside { (p : ℕ) × (p < frame_count sizes.now) × HasWord (frame_span sizes.now p) address }
    ensures { result ≡ frame_at sizes.now address }
{
    let small = sizes.small * sizes.small_words;
    let large = sizes.large * sizes.large_words;
    let word = address - 1;
    if word < small {
        (word / sizes.small_words) as u16
    } else if word - small < large {
        (sizes.small + (word - small) / sizes.large_words) as u16
    } else {
        (sizes.small + sizes.large + (word - small - large) / sizes.extra_words) as u16
    }
}
