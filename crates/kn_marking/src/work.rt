//! What one caller has of the marking.

/// The root set or the cell that a caller goes through, and the place reached there.
#[derive(Clone, Copy)]
pub enum Doing {
    Free,
    /// A root set that it claimed: its number, and the number of the word reached.
    Set(u8, u32),
    /// A cell whose header is to be read: its address.
    Header(u32),
    /// A cell, its header, and the number of the field reached.
    Cell(u32, u64, u32),
}

/// The object that the place reached names, by its address.
#[derive(Clone, Copy)]
pub enum Child {
    NoChild,
    /// Its mark is to be loaded.
    Met(u32),
    /// This mark was loaded, and a unit of work is to be added for it.
    Seen(u32, u64),
    /// A unit of work is held for it, and this mark is to be exchanged.
    Reserved(u32, u64),
}

/// The share of one caller.
#[derive(Clone, Copy)]
pub struct Work {
    /// The epoch of the last phase word of Mark that it loaded or stored, and 0 before the first.
    pub epoch: u32,
    /// A root set, and its word, whose exchange is due.
    pub due: Option<(u8, u64)>,
    pub doing: Doing,
    pub child: Child,
    /// The units of work that it is to give back.
    pub owed: u64,
}
