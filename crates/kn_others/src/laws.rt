//! The laws of one turn.

ghost use Rattle.kn_others.specs.Laws.{HeapStays, HistoryGrows, NoneComesUnswept, NoneIsMet};
ghost use Rattle.kn_others.specs.Laws.{OpenedIsSwept, OthersStay};

/// What a caller's turn leaves, and where no frame is unswept.
pub fn turn_laws()
    ensures others { OthersStay }
    ensures heap { HeapStays }
    ensures history { HistoryGrows }
    ensures unswept { NoneComesUnswept }
    ensures opened { OpenedIsSwept }
    ensures met { NoneIsMet }
{}
