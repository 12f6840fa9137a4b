use kn_graph::Call;

/// What a mutator does next.
#[derive(Clone, Copy)]
pub enum Task {
    /// It is out, and loads the phase.
    Out,
    /// It is out and has loaded Mark, and its marker makes the turns, also where the phase has gone on.
    Helps,
    /// It is out behind a run phase, and stores that it is in.
    GoesIn,
    /// It is entering, and loads the phase for its next call, or for the epoch that it waits for.
    Enters,
    /// It is between calls, and loads the phase for its next call.
    Polls,
    /// A call is at its own steps: the call, and the header that was read for it.
    Calls(Call, Option<u64>),
    /// A call gets its cell.
    Births(Call),
    /// A value is due for a local: the local, the value.
    Writes(u8, u32),
    /// It waits for the epoch of a `gc`, and loads the phase.
    Waits,
    /// A page for a single object goes home before the next call.
    SendsSingle,
    /// Its pages go home, and then it is out.
    Leaves,
    /// Its pages go home, and then it has ended.
    Ends,
    /// It has ended.
    Ended,
}
