/// The step that a marker makes next.
#[derive(Clone, Copy)]
pub enum Next {
    /// It gives back a unit of work that it owes.
    Gives,
    /// It loads the mark of the child at this address.
    Meets(u32),
    /// It adds a unit of work for the child, whose mark is this one.
    Adds(u32, u64),
    /// It exchanges this mark of the child for gray.
    Grays(u32, u64),
    /// It loads a word of the root set that it claimed: its number, and that of the word.
    LoadsRoot(u8, u32),
    /// It stores that the root set is finished.
    Finishes(u8),
    /// It loads the header of the cell that it scans.
    LoadsHeader(u32),
    /// It loads a reference field of the cell: its address, its header, and the number of the field.
    LoadsField(u32, u64, u32),
    /// It makes the cell black.
    Blackens(u32),
    /// It claims a root set, by the word that it loaded of it.
    Claims(u8, u64),
    /// It loads the word of a root set.
    LooksAt(u8),
    /// It takes up a hint: it exchanges the mark at this address, if it is gray, for scanned.
    TakesUp(u32),
    /// It loads the count of open work.
    Counts,
    /// It loads the mark at the cursor, the first of so many that are left in its search.
    Searches(u8),
}
