//! What a caller saw of frames in searches, and where it sweeps.
/// What a caller saw of a frame. A search has the number of its call, and one more.
#[derive(Clone, Copy)]
pub struct Look {
    /// The search in which the frame's word was seen last, and the word.
    pub seen_in: u32,
    pub word: u64,
    /// The search in which the frame was refused last.
    pub refused_in: u32,
}

/// The sweep of a frame: the frame, and the place reached.
#[derive(Clone, Copy)]
pub struct SweepPlace {
    pub frame: u16,
    pub at: u32,
}
