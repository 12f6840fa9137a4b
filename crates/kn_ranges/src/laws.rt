//! Laws of free spans for the pages that keep them, each the contract of a function that does nothing
//! (`specs/Laws.antt`).
ghost use Rattle.kn_ranges.specs.Laws.{CellsAreReleased, CellsAreTaken, FrontsLeaveRests, PutsHaveRoom, WholeCellsAreLeft};

/// A span may be put in where there is room for the list with it.
pub fn puts_have_room()
    ensures { PutsHaveRoom }
{}

/// Without its first words a span is the words behind them.
pub fn fronts_leave_rests()
    ensures { FrontsLeaveRests }
{}

/// A cell that is taken from the front of a span leaves the spans on cells.
pub fn cells_are_taken()
    ensures { CellsAreTaken }
{}

/// A taken cell that is put in leaves the spans on cells, and a page has room for it.
pub fn cells_are_released()
    ensures { CellsAreReleased }
{}

/// Spans that leave whole cells are on cells, and a page has room for them.
pub fn whole_cells_are_left()
    ensures { WholeCellsAreLeft }
{}
