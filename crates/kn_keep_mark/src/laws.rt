//! The laws of stops, and one on the epoch wanted.

ghost use Rattle.kn_rule.specs.declared.steps.Kind.TheVariants.{K13, K15, K16};
ghost use Rattle.kn_keep_heap.specs.Laws.{KeepsRule};
ghost use Rattle.kn_keep_mark.specs.Laws.{EpochsAreFew, StopsKeepRule};

/// A raise of the epoch wanted, and a load of it, keeps the rule.
pub fn keeps_k13()
    ensures { KeepsRule K13 }
{}

/// A store of a stop, or of Mark, keeps the rule.
pub fn keeps_stops()
    ensures { StopsKeepRule }
{}

/// A load of a mutator's state keeps the rule.
pub fn keeps_k15()
    ensures { KeepsRule K15 }
{}

/// The store that begins the marking, and a load of the count of open work, keeps the rule.
pub fn keeps_k16()
    ensures { KeepsRule K16 }
{}

/// No more epochs are wanted than calls may be made.
pub fn epochs_are_few()
    ensures { EpochsAreFew }
{}
