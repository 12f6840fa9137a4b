use kn_graph::Call;

/// The kinds of step, by number. A kind is a caller's reason for one action on one word; when a
/// view allows it is `MayMake` in `specs/Allowed.antt`. Kinds behind `K24` are not built: no view
/// allows them.
#[derive(Clone, Copy)]
pub enum Kind {
    /// A mutator loads the phase, and leaves, or begins a call, or goes on waiting.
    K1,
    /// A caller stores where it stands: out, in, or ended.
    K2,
    /// A mutator stores the value that is due for one of its locals.
    K3,
    /// A header or a field is loaded.
    K4,
    /// A mutator stores a field.
    K5,
    /// A mutator loads a global.
    K6,
    /// A mutator stores a global.
    K7,
    /// A mutator stores the mark of a cleared cell, which makes it an object.
    K8,
    /// A mutator in a search loads a frame's word.
    K9,
    /// A frame's word is exchanged for one that names its new owner.
    K10,
    /// An owner stores the word with which a frame is free again, its page in its slot.
    K11,
    /// A mutator stores the next word of a cell that it took.
    K12,
    /// The greatest epoch wanted is raised or loaded.
    K13,
    /// The collector stores the next phase.
    K14,
    /// A caller's state is loaded.
    K15,
    /// The count of open mark work is stored or loaded.
    K16,
    /// A root set is loaded, claimed or finished.
    K17,
    /// A word of a claimed root set is loaded.
    K18,
    /// One more unit of mark work is open.
    K19,
    /// A child's mark is loaded, or exchanged for gray.
    K20,
    /// One unit of mark work is done.
    K21,
    /// A gray mark is exchanged for scanned.
    K22,
    /// A header or a reference field of a scanned cell is loaded.
    K23,
    /// The mark of a scanned cell becomes black.
    K24,
    /// The word of a name is loaded.
    K25,
    /// The word of a name is exchanged.
    K26,
    /// The mark of what a name names is loaded.
    K27,
    /// The word of a name whose referent is condemned is exchanged for cleared.
    K28,
    /// A frame's word becomes unswept.
    K29,
    /// A sweeper loads the side word of a cell.
    K30,
    /// The side word of a condemned object becomes 0.
    K31,
    /// A frame's word is loaded by the collector, or stored with the stamp of the epoch.
    K32,
    /// The side word of a new extra cell becomes live.
    K33,
    /// A header is exchanged for one that names an extra cell.
    K34,
    /// A live extra cell becomes queued.
    K35,
    /// The side word of an extra cell is loaded, or exchanged for finalized.
    K36,
    /// An extra cell becomes dead.
    K37,
    /// The side word of a dead extra cell becomes 0.
    K38,
    /// A seat makes another.
    K39,
    /// A seat takes in an ended one.
    K40,
}

/// What a step does with its word.
#[derive(Clone, Copy)]
pub enum Action {
    Loads,
    /// A load of the phase, with the call that begins where the phase lets it.
    LoadsFor(Option<Call>),
    Stores(u64),
    /// The word wanted, and the word stored where it was found.
    Swaps(u64, u64),
    Adds(u64),
    Subtracts(u64),
    /// The word stored where it is above the one found.
    Raises(u64),
}
