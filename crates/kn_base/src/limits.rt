//! The limits of a heap, of a run over it, and of a script.

/// The greatest number of threads, and the length of the lists that `Sizes` has for threads.
pub const MOST_THREADS: u32 = 16;

/// The number of a thread's locals.
pub const LOCALS: u32 = 16;

/// The greatest numbers of globals, of stable names, of weak names and of back names.
pub const MOST_NAMES: u32 = 64;

/// The greatest count of a back reference.
pub const MOST_BACK_COUNT: u32 = 4_095;

/// The greatest number of layouts.
pub const MOST_LAYOUTS: u32 = 64;

/// The greatest number of a layout's fields.
pub const MOST_FIELDS: u32 = 64;

/// The greatest length of an array, in elements.
pub const MOST_ELEMENTS: u32 = 60_000;

/// The greatest number of cleaners.
pub const MOST_CLEANERS: u32 = 4;

/// The greatest number of frames, of each area and of all together.
pub const MOST_FRAMES: u32 = 256;

/// The least number of words of a small or a large frame.
pub const LEAST_FRAME_WORDS: u32 = 32;

/// The least number of words of an extra frame.
pub const LEAST_EXTRA_WORDS: u32 = 2;

/// The greatest number of words of a frame.
pub const MOST_FRAME_WORDS: u32 = 65_536;

/// The least number of words of all frames together.
pub const LEAST_HEAP_WORDS: u32 = 32;

/// The greatest number of words of all frames together.
pub const MOST_HEAP_WORDS: u32 = 1_000_000;

/// The greatest number of calls of all threads together.
pub const MOST_CALLS: u32 = 16_384;

/// The greatest number of order words of a script.
pub const MOST_ORDER_WORDS: u32 = 65_536;

/// The greatest length of a script's text, in bytes.
pub const LONGEST_TEXT: u32 = 1_048_576;
