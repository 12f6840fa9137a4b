/// What a collector does next. Behind `Paused` no other stage comes yet.
#[derive(Clone, Copy)]
pub enum Stage {
    /// It loads the state of this mutator; all before it have ended.
    Looks(u8),
    /// It loads the epoch wanted: whether all mutators have ended.
    Wants(bool),
    /// It stores that it has ended.
    Ends,
    /// It has ended.
    Ended,
    /// It stores the stop of the next epoch.
    Stops,
    /// It loads the state of this mutator in the stop; all before it were counted.
    Counts(u8),
    /// It stores the count of open work, with which the marking begins.
    Begins,
    /// It stores Mark.
    Marks,
    /// Its marker makes the turns.
    Marking,
    /// It stores Weak, which is the pause.
    Pauses,
    /// It loads the state of mutator 0.
    Paused,
}
