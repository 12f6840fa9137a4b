/// The colour of an object.
#[derive(Clone, Copy)]
pub enum Colour {
    /// The object has no colour.
    White,
    /// Its fields are still to be looked at.
    Gray,
    Black,
}

/// What a thread is in the middle of.
#[derive(Clone, Copy)]
pub enum Doing {
    Free,
    /// A `set` that has loaded the value which it will overwrite: the object, the field, the value.
    Loaded(u32, u32, Option<u32>),
    /// A `set` that has shaded the value which it will overwrite: the object, the field.
    Shaded(u32, u32),
}

/// What the collector is at.
#[derive(Clone, Copy)]
pub enum Stage {
    /// It has taken no snapshot.
    Waiting,
    /// It marks, and has no object begun.
    Marking,
    /// It marks, and has begun an object: the object, and the field to look at next.
    Looking(u32, u32),
    /// It has marked all.
    Finished,
}

/// What a turn answers.
#[derive(Clone, Copy)]
pub enum CmsTurn {
    /// It made a step.
    Moved,
    /// It made none: the collector waits for a thread in the middle of a call.
    Idle(u8),
    /// The actor has ended.
    Done,
}
