//! The laws of the core. Each is a clause of a function that does nothing; what it says is written
//! in `specs/Laws.antt`.

ghost use Rattle.kn_cms_rule.specs.Laws.{CollectorKeeps, CondemnsExactly, OpeningIsRuled, PausesAreThere, ThreadKeeps};
ghost use Rattle.kn_cms_rule.specs.Turns.{DoneExactly, IdleExactly};
ghost use Rattle.kn_cms_rule.specs.Steps.{Answers, Bears, Begins, Blackens, Ends, Fills, Loads, Looks, Refuses, Shades, Snapshots, Stores};

/// The rule holds before all steps.
pub fn opening_law()
    ensures { OpeningIsRuled }
{}

/// A birth keeps the rule.
pub fn birth_law()
    ensures { ThreadKeeps Bears }
{}

/// A birth that is full keeps the rule.
pub fn full_birth_law()
    ensures { ThreadKeeps Fills }
{}

/// A whole call keeps the rule.
pub fn whole_call_law()
    ensures { ThreadKeeps Answers }
{}

/// A `set` that has no field to store keeps the rule.
pub fn refusal_law()
    ensures { ThreadKeeps Refuses }
{}

/// A load of the value that a `set` will overwrite keeps the rule.
pub fn load_law()
    ensures { ThreadKeeps Loads }
{}

/// The shading of that value keeps the rule.
pub fn shade_law()
    ensures { ThreadKeeps Shades }
{}

/// A store of a field keeps the rule.
pub fn store_law()
    ensures { ThreadKeeps Stores }
{}

/// The snapshot keeps the rule, and the flags of its pause are there.
pub fn snapshot_law()
    ensures keeps { CollectorKeeps Snapshots }
    ensures there { PausesAreThere }
{}

/// The beginning of an object keeps the rule.
pub fn begin_law()
    ensures { CollectorKeeps Begins }
{}

/// A look at a field keeps the rule.
pub fn look_law()
    ensures { CollectorKeeps Looks }
{}

/// The end of an object keeps the rule.
pub fn blacken_law()
    ensures { CollectorKeeps Blackens }
{}

/// The end of marking keeps the rule, and then exactly what was unreachable at the pause has no colour.
pub fn end_law()
    ensures keeps { CollectorKeeps Ends }
    ensures exactly { CondemnsExactly }
{}

/// When a turn is idle, and when it ends an actor.
pub fn turn_laws()
    ensures idle { IdleExactly }
    ensures done { DoneExactly }
{}
