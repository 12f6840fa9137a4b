//! The laws of turns. Each is a clause of a function that does nothing; what it says is written in
//! `specs/TurnLaws.antt`.

ghost use Rattle.kn_cms_bound.specs.TurnLaws.{TurnsAreOne, TurnsGoOn, TurnsLower};

/// What a turn keeps, and how it lowers the steps that are left.
pub fn turn_law()
    ensures goes_on { TurnsGoOn }
    ensures lowers { TurnsLower }
{}

/// A state and an actor leave one turn.
pub fn one_turn_law()
    ensures { TurnsAreOne }
{}
