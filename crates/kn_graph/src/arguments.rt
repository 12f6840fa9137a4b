use kn_base::{LOCALS, MOST_CLEANERS, MOST_ELEMENTS};

/// The word that begins a call.
#[derive(Clone, Copy)]
pub enum CallWord {
    New,
    NewArray,
    Copy,
    Clear,
    Same,
    Get,
    Set,
    Put,
    Read,
    GlobalSet,
    GlobalGet,
    Pin,
    Unpin,
    StableGet,
    MakeWeak,
    WeakGet,
    MakeBack,
    Retain,
    Release,
    BackGet,
    Tie,
    Collect,
}

/// What an argument of a call is. Which numbers it may be is `Fits` in `specs/Arguments.antt`.
#[derive(Clone, Copy)]
pub enum Argument {
    /// A number up to a greatest one: a local, a field, a cleaner, or a plain number.
    Number(u64),
    /// The number of a layout that is a list of fields.
    FieldsLayout,
    /// The number of a layout that is an array.
    ArrayLayout,
    /// The number of a global.
    Global,
    /// The number of a stable, a weak or a back name.
    Stable,
    Weak,
    Back,
}

/// The number of a local.
pub const LOCAL: Argument = Argument::Number(LOCALS as u64 - 1);

/// The number of a field.
pub const FIELD: Argument = Argument::Number(65_535);

/// The number of a cleaner.
pub const CLEANER: Argument = Argument::Number(MOST_CLEANERS as u64 - 1);

/// The number of an array's elements.
pub const ELEMENTS: Argument = Argument::Number(MOST_ELEMENTS as u64);

/// A number of 32 bits, for a cleaner.
pub const SMALL_NUMBER: Argument = Argument::Number(u32::MAX as u64);

/// A number of 64 bits.
pub const ANY_NUMBER: Argument = Argument::Number(u64::MAX);
