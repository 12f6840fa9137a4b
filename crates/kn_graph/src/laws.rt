//! The laws of legal histories and of the graphs that they lead to. Each is a clause of a function
//! that does nothing; what it says is written in `specs/Laws.antt`.

ghost use Rattle.kn_graph.specs.Counts.{is_birth, is_done, is_finalization, is_finalized, is_pause, is_queueing, is_release, passing};
ghost use Rattle.kn_graph.specs.Laws.{AddressesArePositive, AddressesName, AddressesNameOne, BirthIsWritten, BirthsExtend};
ghost use Rattle.kn_graph.specs.Laws.{BornWereCalled, CallsChangeOneThing, CallsExtend};
ghost use Rattle.kn_graph.specs.Laws.{CondemnedWasUnreachable, EnteredIsBelow, EnteredIsLast, EntriesExtend, EntriesKeepSound};
ghost use Rattle.kn_graph.specs.Laws.{EntriesLeadToOne, EpochsArePast};
ghost use Rattle.kn_graph.specs.Laws.{EpochsCollect, FieldsAreThere, FinalizedOnce, GoneIsCondemned, HeldIsAlive, HistoriesKeepSound};
ghost use Rattle.kn_graph.specs.Laws.{HistoriesLeadToOne, HistoriesSplit, IsNumberOf, LegalCellsAreApart, LegalIsSound, LengthsAreFields};
ghost use Rattle.kn_graph.specs.Laws.{LogsExtend, ObjectIsWritten, OnlyPausesCondemn, PassingAreBorn, ReachableIsAlive, RepliesExtend};
ghost use Rattle.kn_graph.specs.Laws.{ShapesAreSmall, WeakReadsAnswer};

/// Histories are made longer and cut in two, and each leads to one graph.
pub fn history_laws()
    ensures extended { EntriesExtend }
    ensures split { HistoriesSplit }
    ensures one_next { EntriesLeadToOne }
    ensures one_end { HistoriesLeadToOne }
{}

/// The graph after a legal history is sound, and each entry leads on from it.
pub fn sound_laws()
    ensures legal { LegalIsSound }
    ensures next { EntriesKeepSound }
    ensures led { HistoriesKeepSound }
    ensures call { CallsChangeOneThing }
    ensures object { ObjectIsWritten }
    ensures birth { BirthIsWritten }
{}

/// An address names one object, and objects that are not released share no word.
pub fn address_laws()
    ensures named { AddressesName }
    ensures one { AddressesNameOne }
    ensures apart { LegalCellsAreApart }
    ensures positive { AddressesArePositive }
{}

/// The fields of an object, and the limits of its layout and length.
pub fn length_laws()
    ensures length { LengthsAreFields }
    ensures fields { FieldsAreThere }
    ensures limits { ShapesAreSmall }
{}

/// Nothing that is condemned is reachable, or is held by what is not condemned.
pub fn reachable_laws()
    ensures reachable { ReachableIsAlive }
    ensures held { HeldIsAlive }
{}

/// What the pauses of a history condemn: a weak read answers `none` for it, once an epoch is done it
/// is released or queued, and it is finalized at most once.
pub fn epoch_laws()
    ensures pauses { OnlyPausesCondemn }
    ensures condemned { CondemnedWasUnreachable }
    ensures weak { WeakReadsAnswer }
    ensures gone { GoneIsCondemned }
    ensures collected { EpochsCollect }
    ensures once { FinalizedOnce }
{}

/// How many events of each kind a legal history has.
pub fn count_laws()
    ensures pauses { IsNumberOf is_pause (λ g. g.paused) }
    ensures dones { IsNumberOf is_done (λ g. g.done) }
    ensures births { IsNumberOf is_birth (λ g. g.born) }
    ensures called { BornWereCalled }
    ensures releases { IsNumberOf is_release (passing (λ o. o.released)) }
    ensures queueings { IsNumberOf is_queueing (passing (λ o. o.queued)) }
    ensures finalizations { IsNumberOf is_finalization (passing is_finalized) }
    ensures few { PassingAreBorn }
{}

/// The log of one caller: what one entry more adds to it, and which epochs its entries have.
pub fn log_laws()
    ensures log { LogsExtend }
    ensures calls { CallsExtend }
    ensures replies { RepliesExtend }
    ensures births { BirthsExtend }
    ensures last { EnteredIsLast }
    ensures below { EnteredIsBelow }
    ensures past { EpochsArePast }
{}
