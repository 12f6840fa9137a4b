use kn_base::Span;

/// A cell that was taken for the call under way and is not born: its frame, its words, and how many
/// of them, from the first, are cleared.
#[derive(Clone, Copy)]
pub struct Taken {
    pub frame: u16,
    pub span: Span,
    pub cleared: u32,
}

/// What one caller has read for a name: the name's word, and the epoch that its referent's mark
/// showed; and an extra cell whose next step is due.
#[derive(Clone, Copy)]
pub struct Referring {
    pub node: Option<u64>,
    pub shown: Option<u32>,
    pub extra: Option<u32>,
}

/// What the finalizer has in one pass over the extra cells.
#[derive(Clone, Copy)]
pub struct Finalizing {
    /// The address of the place reached.
    pub at: u32,
    /// A queued cell was met in this pass.
    pub met: bool,
    /// The collector was seen ended in this pass.
    pub ended: bool,
    /// The queued cell that was found.
    pub queued: Option<u32>,
    /// The first and the second word of that cell.
    pub tie: Option<u64>,
    pub object: Option<u64>,
}
