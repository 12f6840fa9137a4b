//! The laws of the marking. Each is a clause of a function that does nothing; what it says is written
//! in `specs/Laws.antt`.

ghost use Rattle.kn_marking.specs.Laws.{CellsAreBlackened, ChildrenAreGrayed, ChildrenAreLost, ChildrenAreMet, ChildrenAreSeen};
ghost use Rattle.kn_marking.specs.Laws.{EpochsAreSeen, FewAreOpen, GrayAreScanned, HeadersAreRead, MarkedChildrenArePassed, MarkingsBegin};
ghost use Rattle.kn_marking.specs.Laws.{MarkingsRest, MarksAreSettled, NoneHasAShare, PausesCondemn, PlacesArePassed};
ghost use Rattle.kn_marking.specs.Laws.{RestingSetsAreLooked, RestingSetsAreMissed, SetsAreFinished, SetsAreLooked, SetsAreMissed};
ghost use Rattle.kn_marking.specs.Laws.{SetsAreTaken, SharesAreWhole, StaleSetsAreMissed, UnitsAreAdded, UnitsAreGiven};

/// Shares make the whole, and the epoch of the marking is seen.
pub fn share_laws()
    ensures whole { SharesAreWhole }
    ensures seen { EpochsAreSeen }
{}

/// The word of a root set is loaded, claimed, or claimed by another caller, and a root set is finished.
pub fn set_laws()
    ensures looked { SetsAreLooked }
    ensures missed { SetsAreMissed }
    ensures stale { StaleSetsAreMissed }
    ensures taken { SetsAreTaken }
    ensures finished { SetsAreFinished }
{}

/// A word is read that holds an object or none, and an object that is found becomes gray.
pub fn child_laws()
    ensures passed { PlacesArePassed }
    ensures met { ChildrenAreMet }
    ensures seen { ChildrenAreSeen }
    ensures marked { MarkedChildrenArePassed }
    ensures grayed { ChildrenAreGrayed }
    ensures lost { ChildrenAreLost }
{}

/// Units of work are added and given back.
pub fn unit_laws()
    ensures added { UnitsAreAdded }
    ensures given { UnitsAreGiven }
    ensures few { FewAreOpen }
{}

/// A gray object is scanned, and becomes black.
pub fn cell_laws()
    ensures scanned { GrayAreScanned }
    ensures read { HeadersAreRead }
    ensures black { CellsAreBlackened }
{}

/// Where no work is open, the marks tell what is reachable, and a pause condemns the rest.
pub fn end_laws()
    ensures idle { NoneHasAShare }
    ensures settled { MarksAreSettled }
    ensures condemned { PausesCondemn }
    ensures rest { MarkingsRest }
{}

/// Between two markings no root set is claimed, and then the next marking begins.
pub fn rest_laws()
    ensures looked { RestingSetsAreLooked }
    ensures missed { RestingSetsAreMissed }
    ensures begin { MarkingsBegin }
{}
