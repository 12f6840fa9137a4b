use kn_base::{PhaseWord, Place};

/// What a safepoint does next.
#[derive(Clone, Copy)]
pub enum Stage {
    /// It is out, and loads the phase.
    Out,
    /// It is out behind a run phase, and stores that it is in.
    GoesIn,
    /// It is entering, and loads the phase.
    Enters,
    /// It is entering behind another phase, and stores that it is out.
    GoesBack,
    /// It is in, or leaving.
    In,
}

/// What one turn on the way in came to: something was done; nothing could be done for the phase that
/// was loaded (its place, the word); the caller may help with the marking of an epoch; or it is in, in
/// the phase that was loaded.
#[derive(Clone, Copy)]
pub enum Enter {
    Moved,
    Idle(Place, u64),
    Help(u32),
    In(PhaseWord),
}
