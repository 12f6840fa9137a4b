use kn_base::Place;

/// What one turn of a marker came to: something was done, or nothing could be done for a word that was
/// loaded in this turn (its place, the word), or no work is open.
#[derive(Clone, Copy)]
pub enum MarkTurn {
    Moved,
    Idle(Place, u64),
    Over,
}
