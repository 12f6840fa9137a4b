ghost use Rattle.std.specs.Prelude.{◌≡◌, ◌*◌, ◌+◌, nat_lt, min};
ghost use Rattle.kn_lines.specs.Forms.{heap_places_of, names_places_of};
ghost use Rattle.kn_lines.specs.Values.{frames_from, names_from, no_frames, no_names};
ghost use Rattle.kn_lines.specs.Ranges.{is_outside, is_large_heap, AreWithin};

use kn_base::{MOST_FRAMES, MOST_HEAP_WORDS};

/// The numbers of frames of each area, and the words of one frame there.
#[derive(Clone, Copy)]
pub struct FrameSizes {
    pub small: u32,
    pub small_words: u32,
    pub large: u32,
    pub large_words: u32,
    pub extra: u32,
    pub extra_words: u32,
}

/// The numbers of globals, and of stable, weak and back names.
#[derive(Clone, Copy)]
pub struct NameCounts {
    pub globals: u32,
    pub stable: u32,
    pub weak: u32,
    pub back: u32,
}

impl FrameSizes {
    /// None.
    pub fn new() -> FrameSizes
        ensures { result ≡ no_frames }
    {
        FrameSizes {
            small: 0,
            small_words: 0,
            large: 0,
            large_words: 0,
            extra: 0,
            extra_words: 0,
        }
    }

    /// The frames of a heap line.
    pub fn from_values(values: [u64; 6]) -> FrameSizes
        requires { AreWithin heap_places_of values }
        ensures { result ≡ frames_from values }
    {
        let [small, small_words, large, large_words, extra, extra_words] = values;
        FrameSizes {
            small: small as u32,
            small_words: small_words as u32,
            large: large as u32,
            large_words: large_words as u32,
            extra: extra as u32,
            extra_words: extra_words as u32,
        }
    }
}

impl NameCounts {
    /// None.
    pub fn new() -> NameCounts
        ensures { result ≡ no_names }
    {
        NameCounts {
            globals: 0,
            stable: 0,
            weak: 0,
            back: 0,
        }
    }

    /// The numbers of names of a names line.
    pub fn from_values(values: [u64; 6]) -> NameCounts
        requires { AreWithin names_places_of values }
        ensures { result ≡ names_from values }
    {
        let [globals, stable, weak, back, _, _] = values;
        NameCounts {
            globals: globals as u32,
            stable: stable as u32,
            weak: weak as u32,
            back: back as u32,
        }
    }
}

/// Whether there are more frames or words than a heap may have.
pub fn is_large_heap(values: [u64; 6], count: usize) -> bool
    ensures { result ≡ is_large_heap values count }
{
    let [small, small_words, large, large_words, extra, extra_words] = values;
    (5 <= count
        && u128::from(MOST_FRAMES) < u128::from(small) + u128::from(large) + u128::from(extra))
        || (6 <= count && is_above(small, small_words, large, large_words, extra, extra_words))
}

/// Whether three products have a sum above the words that a heap may have.
fn is_above(a: u64, b: u64, c: u64, d: u64, e: u64, f: u64) -> bool
    ensures { result ≡ nat_lt MOST_HEAP_WORDS (a * b + c * d + e * f) }
{
    let first = product(a, b);
    let second = product(c, d);
    let third = product(e, f);
    u64::from(MOST_HEAP_WORDS) < first + second + third
}

/// The product of two numbers, or a number above the words of a heap where it is larger.
fn product(a: u64, b: u64) -> u64
    ensures { result ≡ min (a * b) 1000001 }
{
    match a.checked_mul(b) {
        Some(product) => product.min(1_000_001),
        None => 1_000_001,
    }
}

/// Whether a number lies outside of two others.
pub fn is_outside(least: u64, greatest: u64, number: u64) -> bool
    ensures { result ≡ is_outside least greatest number }
{
    number < least || greatest < number
}
