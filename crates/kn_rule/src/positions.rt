use kn_graph::Call;

/// Where a caller stands. A mutator is in from the load that lets it in to the one that makes it
/// leave. What is due of a call stands here, so one caller has one such thing at a time.
#[derive(Clone, Copy)]
pub enum Position {
    Out,
    /// Its state is stored, and the phase is to be loaded once more.
    Entering,
    /// In, between two calls.
    Between,
    /// In, with this call begun and not answered.
    Calling(Call),
    /// In, with a value that is due for a local: the local, the address, and the words of a birth that
    /// are to be counted behind that store, 0 for none.
    Writing(u8, u32, u32),
    /// In, with an extra cell to give back after a lost tie: its address.
    Dropping(u32),
    /// In, with the words of a birth to be counted.
    Adding(u32),
    /// In, waiting for the epoch of a `gc`.
    Waiting,
    Leaving,
    Ended,
}
