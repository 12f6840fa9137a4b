use kn_base::Place;

/// What one turn of a machine came to: something was done, or nothing could be done for a word that
/// was loaded in this turn (its place, the word), or the machine's caller has ended.
#[derive(Clone, Copy)]
pub enum Turn {
    Moved,
    Idle(Place, u64),
    Done,
}
