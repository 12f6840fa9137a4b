//! Laws on lists of free spans. Each is a clause of a function that does nothing.
ghost use Rattle.kn_holds.specs.Holds.{FreeCellsLieInOne, FreeListsAreShort};

/// A free cell lies in one span.
pub fn cell_law()
    ensures { FreeCellsLieInOne }
{}

/// A frame has fewer free spans than words.
pub fn length_law()
    ensures { FreeListsAreShort }
{}
