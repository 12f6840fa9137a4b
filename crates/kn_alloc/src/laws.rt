//! The laws of the agreement between what an allocator keeps and what its caller knows. They are
//! clauses of a function that does nothing; what they say is written in `specs/Laws.antt`.

ghost use Rattle.kn_alloc.specs.Laws.{Opens, StaysAsPagesMove, StaysWhileIdle};

/// Where the agreement begins, and what it outlasts.
pub fn agreement_laws()
    ensures opens { Opens }
    ensures moves { StaysAsPagesMove }
    ensures outlasts { StaysWhileIdle }
{}
