//! The history of a run.
ghost use Rattle.std.specs.Prelude.{◌≡◌, IfOk, [], ◌∷◌};
ghost use Rattle.kn_rule.specs.Steps.{more};
ghost use Rattle.kn_view.specs.Told.{IsShort};

use kn_base::MOST_CALLS;
use kn_graph::Entry;
use std::alloc::{AllocError, Global};
use std::marker::Model;

/// All entries that were made, in order. Contracts see the list of them.
#[derive(Drop)]
pub struct History {
    entries: Vec<Entry>,
}

impl Model for History {
    ghost use Rattle.std.specs.Prelude.{◌*◌, ◌<◌, List, vec_capacity};
    ghost use Rattle.kn_base.specs.declared.limits.TheConstants.{MOST_CALLS};
    ghost use Rattle.kn_graph.specs.declared.entries.Entry.{Entry};

    ghost Value = { List Entry };

    ghost view = { λ h. h.entries.items };

    ghost invariant = { λ h. 2 * MOST_CALLS < vec_capacity h.entries };
}

impl History {
    /// No entry was made, and there is room for one more than the calls and the pauses of a run. An
    /// error is want of memory.
    pub fn open(alloc: Global) -> Result<History, AllocError>
        ensures { IfOk result (λ h. h ≡ []) }
    {
        let entries = Vec::with_capacity(alloc, 2 * MOST_CALLS as usize + 1)?;
        Ok(History { entries })
    }

    pub fn entries(&self) -> &[Entry]
        ensures { result.now ≡ self.now }
    {
        self.entries.as_slice()
    }

    /// Puts an entry last.
    #[inline(always)]
    pub fn push(&mut self, entry: Entry)
        requires { IsShort self.old }
        ensures { self.new ≡ more self.old (entry ∷ []) }
    {
        if self.entries.push(entry).is_err() {
            unreachable!();
        }
    }
}
