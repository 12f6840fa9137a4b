//! The laws: one for each kind of step, over all kinds, and on what the marks tell.

ghost use Rattle.kn_rule.specs.declared.steps.Kind.TheVariants.{K14, K17, K18, K19, K20, K21, K22, K23, K24};
ghost use Rattle.kn_keep_heap.specs.Laws.{KeepsRule};
ghost use Rattle.kn_keep_marking.specs.Laws.{MarksTell, StepsKeepRule, StepsLieWithin};

/// A store of a phase keeps the rule: of a stop, of Mark, and of Weak, which is the pause.
pub fn keeps_k14()
    ensures { KeepsRule K14 }
{}

/// A look at a root set, its claim, and the store that finishes it keeps the rule.
pub fn keeps_k17()
    ensures { KeepsRule K17 }
{}

/// A load of a word of a claimed root set keeps the rule.
pub fn keeps_k18()
    ensures { KeepsRule K18 }
{}

/// A unit of work that is added for a child keeps the rule.
pub fn keeps_k19()
    ensures { KeepsRule K19 }
{}

/// A load of a mark, and its exchange for gray, keeps the rule.
pub fn keeps_k20()
    ensures { KeepsRule K20 }
{}

/// A unit of work that is given back keeps the rule.
pub fn keeps_k21()
    ensures { KeepsRule K21 }
{}

/// The exchange of a gray mark for scanned keeps the rule.
pub fn keeps_k22()
    ensures { KeepsRule K22 }
{}

/// A load of the header, or of a reference field, of a scanned cell keeps the rule.
pub fn keeps_k23()
    ensures { KeepsRule K23 }
{}

/// The store that makes a scanned cell black keeps the rule.
pub fn keeps_k24()
    ensures { KeepsRule K24 }
{}

/// Each step that a view allows is made at a place of the heap.
pub fn places_lie()
    ensures { StepsLieWithin }
{}

/// Each step that a view allows keeps the rule, of whatever kind it is.
pub fn steps_keep()
    ensures { StepsKeepRule }
{}

/// Where no work is open in Mark, the marks tell which objects are reachable.
pub fn marks_tell()
    ensures { MarksTell }
{}
