//! The laws, one for each kind of step.

ghost use Rattle.kn_rule.specs.declared.steps.Kind.TheVariants.{K1, K2, K3, K4, K5};
ghost use Rattle.kn_rule.specs.declared.steps.Kind.TheVariants.{K6, K7, K8, K9, K10};
ghost use Rattle.kn_rule.specs.declared.steps.Kind.TheVariants.{K11, K12};
ghost use Rattle.kn_keep_heap.specs.Laws.{KeepsRule, LocalsAreAddresses, PhasesAreSmall};

/// A poll keeps the rule.
pub fn keeps_k1()
    ensures { KeepsRule K1 }
{}

/// A store of a mutator's state, and of the collector's where it ends, keeps the rule.
pub fn keeps_k2()
    ensures { KeepsRule K2 }
{}

/// A store of a local keeps the rule.
pub fn keeps_k3()
    ensures { KeepsRule K3 }
{}

/// A load of a header or of a field keeps the rule.
pub fn keeps_k4()
    ensures { KeepsRule K4 }
{}

/// A store of a field keeps the rule.
pub fn keeps_k5()
    ensures { KeepsRule K5 }
{}

/// A load of a global keeps the rule.
pub fn keeps_k6()
    ensures { KeepsRule K6 }
{}

/// A store of a global keeps the rule.
pub fn keeps_k7()
    ensures { KeepsRule K7 }
{}

/// A birth keeps the rule.
pub fn keeps_k8()
    ensures { KeepsRule K8 }
{}

/// A look at a frame keeps the rule.
pub fn keeps_k9()
    ensures { KeepsRule K9 }
{}

/// A claim of a frame, won or lost, keeps the rule.
pub fn keeps_k10()
    ensures { KeepsRule K10 }
{}

/// A frame that is given back keeps the rule.
pub fn keeps_k11()
    ensures { KeepsRule K11 }
{}

/// A word of a new cell keeps the rule.
pub fn keeps_k12()
    ensures { KeepsRule K12 }
{}

/// Phases and addresses are short words.
pub fn words_are_small()
    ensures phases { PhasesAreSmall }
    ensures locals { LocalsAreAddresses }
{}
