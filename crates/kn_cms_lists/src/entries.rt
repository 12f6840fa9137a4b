//! The entries of a history, for which there is room from the opening on.

ghost use Rattle.std.specs.Prelude.{◌≡◌, ◌+◌, ◌<◌, ◌≤◌, IfOk, [], ◌∷◌, ◌++◌, length, vec_len, vec_capacity};

use kn_graph::Entry;
use std::alloc::{AllocError, Global};
use std::marker::Model;

/// A history. Contracts see the record `KeptEntries` in `specs/Kept.antt`.
#[derive(Drop)]
pub struct Entries {
    list: Vec<Entry>,
    room: usize,
}

impl Model for Entries {
    ghost use Rattle.std.specs.Prelude.{◌≤◌, vec_capacity};
    ghost use Rattle.kn_cms_lists.specs.Kept.{KeptEntries};

    ghost Value = { KeptEntries };

    ghost view = { λ e. record { list = e.list.items; room = e.room } };

    ghost invariant = { λ e. e.room ≤ vec_capacity e.list };
}

impl Entries {
    /// No entries, and room for so many. An error is want of memory.
    pub fn open(alloc: Global, room: usize) -> Result<Entries, AllocError>
        ensures { IfOk result (λ entries. entries ≡ record { list = []; room = room }) }
    {
        Ok(Entries {
            list: Vec::with_capacity(alloc, room)?,
            room,
        })
    }

    /// Puts an entry behind the others.
    pub fn note(&mut self, entry: Entry)
        requires { length self.old.list < self.old.room }
        ensures { self.new ≡ record self.old { list = self.old.list ++ entry ∷ [] } }
    {
        put_last(&mut self.list, entry);
    }

    /// The entries in order.
    pub fn as_slice(&self) -> &[Entry]
        ensures { result.now ≡ self.now.list }
    {
        self.list.as_slice()
    }
}

/// Puts an element behind the others of a list that has room for it.
pub(crate) fn put_last<T: Copy>(list: &mut Vec<T>, element: T)
    requires { vec_len list.old < vec_capacity list.old }
    ensures after { list.new.items ≡ list.old.items ++ element ∷ [] }
    ensures room { vec_capacity list.old ≤ vec_capacity list.new }
{
    if list.push(element).is_err() {
        unreachable!();
    }
}
