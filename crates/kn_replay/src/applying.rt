//! Applying entries. Whether an entry is legal next is told before anything is changed
//! (`IsDecided` in `specs/Applying.antt`).

ghost use Rattle.std.specs.Prelude.{◌≡◌, ◌↔◌, ◌≢◌, ℕ, ◌+◌, ◌-◌, ◌^◌, ◌<◌, ◌≤◌, ◌⊎◌, Bool, true, false, List};
ghost use Rattle.std.specs.Prelude.{Option, Some, None, IfOk, IfSome, IsTrue, MatchResult, vec_len, length, slice_get};
ghost use Rattle.kn_base.specs.Spans.{end_of};
ghost use Rattle.kn_graph.specs.Graph.{IsLegalBirth, Names, cell_at};
ghost use Rattle.kn_graph.specs.Arguments.{IsInRange};
ghost use Rattle.kn_graph.specs.Collections.{Condemns, DoneFollows, FinalizeFollows, IsSettled, QueueFollows, ReleaseFollows, with_condemned};
ghost use Rattle.kn_graph.specs.Histories.{CallFollows, EventFollows, IsByCollector, IsByFinalizer, IsBySweeper};
ghost use Rattle.kn_objects.specs.Replay.{graph_of, object_of};
ghost use Rattle.kn_replay.specs.Seen.{MayBeBorn, condemned_by, told_address};
ghost use Rattle.kn_graph.specs.Counts.{is_pause};
ghost use Rattle.kn_replay.specs.Applying.{IsApplied, IsAwaitedReply, IsDecided, MayBeSeen};

use crate::changes::Change;
use crate::graph::Graph;
use crate::plans::is_full;
use kn_graph::{Call, Entry, Event, Reply};
use kn_layout::cell_size;
use kn_objects::KeptObject;
use std::alloc::{AllocError, Global};

impl Graph {
    /// Whether an entry is legal next; then the graph is the one after it, and otherwise nothing
    /// changes. An error is want of memory, and leaves the graph.
    pub fn apply(&mut self, entry: &Entry) -> Result<bool, AllocError>
        requires { (graph_of self.old).born < 2 ^ 32 - 1 }
        ensures applied { MatchResult result (λ legal. IsApplied entry.now self.old legal self.new) (λ _. self.new ≡ self.old) }
        ensures ground { self.new.ground ≡ self.old.ground }
    {
        if let Event::Pause(epoch) = entry.what {
            return self.pause(entry, epoch);
        }
        let Some(change) = self.change_of(entry) else {
            return Ok(false);
        };
        self.carry_out(entry.by.0, &change)?;
        self.enter(entry.by.0, entry.epoch);
        Ok(true)
    }

    /// Pauses, where that is legal next.
    fn pause(&mut self, entry: &Entry, epoch: u32) -> Result<bool, AllocError>
        requires { entry.now.what ≡ Event.Pause epoch }
        ensures applied { MatchResult result (λ legal. IsApplied entry.now self.old legal self.new) (λ _. self.new ≡ self.old) }
        ensures ground { self.new.ground ≡ self.old.ground }
    {
        if !self.may_pause(entry.by.0, entry.epoch, epoch) {
            return Ok(false);
        }
        let mut marks = unmarked(*self.work.allocator(), self.objects())?;
        self.condemn_unreachable(&mut marks);
        self.begin(epoch);
        self.enter(entry.by.0, entry.epoch);
        Ok(true)
    }

    /// Condemns what is not reachable.
    fn condemn_unreachable(&mut self, marks: &mut [bool])
        requires { length marks.old ≡ (graph_of self.old).born }
        ensures after { graph_of self.new ≡ with_condemned (graph_of self.old) (condemned_by marks.new (graph_of self.old)) }
        ensures condemns { Condemns (graph_of self.old) (condemned_by marks.new (graph_of self.old)) }
        ensures ground { self.new.ground ≡ self.old.ground }
    {
        self.reachable(marks);
        self.condemn(marks);
    }

    /// Whether the collector may pause.
    fn may_pause(&self, by: u8, epoch: u32, paused: u32) -> bool
        ensures { IsTrue result ↔ (IsByCollector self.now.ground by epoch paused
            × (paused ≡ (graph_of self.now).paused + 1) × ((graph_of self.now).done ≡ (graph_of self.now).paused)) }
    {
        if u32::from(by) != self.ground.threads() || epoch != paused {
            return false;
        }
        paused > 0 && paused - 1 == self.paused && self.done == self.paused
    }

    /// Begins an epoch.
    fn begin(&mut self, epoch: u32)
        ensures after { graph_of self.new ≡ record (graph_of self.old) { paused = epoch } }
        ensures ground { self.new.ground ≡ self.old.ground }
    {
        self.paused = epoch;
    }

    /// The change that an entry makes that is no pause, where it is legal next.
    fn change_of(&self, entry: &Entry) -> Option<Change>
        requires { is_pause entry.now.what ≡ false }
        ensures { IsDecided self.now.ground entry.now.by.0 (graph_of self.now)
            (λ g'. EventFollows self.now.ground entry.now.by.0 entry.now.epoch entry.now.what (graph_of self.now) g') result }
    {
        let by = entry.by.0;
        let epoch = entry.epoch;
        match entry.what {
            Event::Call(call, reply, address) => self.answered(by, epoch, &call, &reply, address),
            Event::Pause(_) => None,
            Event::Released(address) => self.released(by, epoch, address),
            Event::Queued(address) => self.queued(by, epoch, address),
            Event::Finalized(address, cleaner, number) => self.finalized(
                by, epoch, address, cleaner, number,
            ),
            Event::Done(done) => self.finished(by, epoch, done),
        }
    }

    /// The object that an address names.
    fn named(&self, address: u32) -> Option<u32>
        ensures is { IfSome result (λ n. Names (graph_of self.now) address n) }
        ensures only { (n : ℕ) → Names (graph_of self.now) address n → result ≡ Some n }
    {
        self.objects.find(address)
    }

    /// Whether an object is condemned and has no tie or is finalized.
    fn is_loose(&self, n: u32) -> bool
        ensures { IsTrue result ↔ ((((graph_of self.now).object n).condemned ≡ true)
            × ((((graph_of self.now).object n).tie ≡ None) ⊎ (((graph_of self.now).object n).finalized ≢ None))) }
    {
        match self.object(n) {
            Some(object) => {
                object.condemned && (object.tie.is_none() || object.finalized.is_some())
            }
            None => false,
        }
    }

    /// Whether an object is condemned and has a tie, and is not queued.
    fn is_unqueued(&self, n: u32) -> bool
        ensures { IsTrue result ↔ ((((graph_of self.now).object n).condemned ≡ true)
            × (((graph_of self.now).object n).tie ≢ None) × (((graph_of self.now).object n).queued ≡ false)) }
    {
        match self.object(n) {
            Some(object) if object.queued => false,
            Some(object) => object.condemned && object.tie.is_some(),
            None => false,
        }
    }

    /// Whether an object is queued and not finalized, and is tied so.
    fn awaits_cleaner(&self, n: u32, cleaner: u8, number: u32) -> bool
        ensures { IsTrue result ↔ ((((graph_of self.now).object n).queued ≡ true)
            × (((graph_of self.now).object n).finalized ≡ None) × (((graph_of self.now).object n).tie ≡ Some (cleaner, number))) }
    {
        match self.object(n) {
            Some(object) => {
                object.queued && object.finalized.is_none() && object.tie == Some((cleaner, number))
            }
            None => false,
        }
    }

    /// The change that a release makes, where it is legal next.
    fn released(&self, by: u8, epoch: u32, address: u32) -> Option<Change>
        ensures { IsDecided self.now.ground by (graph_of self.now)
            (λ g'. IsBySweeper self.now.ground by epoch (graph_of self.now) × ReleaseFollows address (graph_of self.now) g') result }
    {
        if !self.is_by_sweeper(by, epoch) {
            return None;
        }
        match self.named(address) {
            Some(n) if self.is_loose(n) => Some(Change::Release(n)),
            _ => None,
        }
    }

    /// The change that a queueing makes, where it is legal next.
    fn queued(&self, by: u8, epoch: u32, address: u32) -> Option<Change>
        ensures { IsDecided self.now.ground by (graph_of self.now)
            (λ g'. IsBySweeper self.now.ground by epoch (graph_of self.now) × QueueFollows address (graph_of self.now) g') result }
    {
        if !self.is_by_sweeper(by, epoch) {
            return None;
        }
        match self.named(address) {
            Some(n) if self.is_unqueued(n) => Some(Change::Queue(n)),
            _ => None,
        }
    }

    /// The change that a finalization makes, where it is legal next.
    fn finalized(
        &self,
        by: u8,
        epoch: u32,
        address: u32,
        cleaner: u8,
        number: u32,
    ) -> Option<Change>
        ensures { IsDecided self.now.ground by (graph_of self.now)
            (λ g'. IsByFinalizer self.now.ground by epoch × FinalizeFollows address cleaner number (graph_of self.now) g') result }
    {
        if u32::from(by) != self.ground.threads() + 1 || epoch != 0 {
            return None;
        }
        match self.named(address) {
            Some(n) if self.awaits_cleaner(n, cleaner, number) => Some(Change::Finalize(n)),
            _ => None,
        }
    }

    /// The change that the end of an epoch makes, where it is legal next.
    fn finished(&self, by: u8, epoch: u32, done: u32) -> Option<Change>
        ensures { IsDecided self.now.ground by (graph_of self.now)
            (λ g'. IsByCollector self.now.ground by epoch done × DoneFollows done (graph_of self.now) g') result }
    {
        if u32::from(by) != self.ground.threads() || epoch != done {
            return None;
        }
        if done != self.paused || self.done >= done {
            return None;
        }
        if self.are_settled(done) {
            Some(Change::Finish(done))
        } else {
            None
        }
    }

    /// Whether the end of an epoch may leave an object as it is.
    fn is_settled(&self, n: u32, epoch: u32) -> bool
        ensures { IsTrue result ↔ IsSettled epoch ((graph_of self.now).object n) }
    {
        match self.object(n) {
            Some(object) => is_settled(&object, epoch),
            None => true,
        }
    }

    /// Whether the end of an epoch may leave all objects as they are.
    fn are_settled(&self, epoch: u32) -> bool
        ensures { IsTrue result ↔ ((n : ℕ) → n < (graph_of self.now).born → IsSettled epoch ((graph_of self.now).object n)) }
    {
        for n in 0..self.objects() {
            if !self.is_settled(n, epoch) {
                return false;
            }
        }
        true
    }

    /// Whether a birth may take the words of a cell for so many fields at this address.
    fn is_legal_birth(&self, address: u32, fields: u32) -> bool
        requires { fields ≤ 60000 }
        ensures { IsTrue result ↔ IsLegalBirth self.now.ground (graph_of self.now) (cell_at address fields) }
    {
        let len = cell_size(fields) as u32;
        if !self.ground.is_in_frame(address, len) {
            return false;
        }
        self.objects.is_free(address, address + len)
    }

    /// Whether a birth that is not `full` may take place at this address.
    fn may_be_born(&self, layout: u8, elements: u32, address: u32, seen: &Reply) -> bool
        requires { elements ≤ 60000 }
        ensures { IsTrue result ↔ MayBeBorn self.now.ground (graph_of self.now) layout elements address seen.now }
    {
        is_full(seen) || self.is_legal_birth(address, self.ground.length_for(layout, elements))
    }

    /// Whether a reply is an epoch that a caller may be told.
    fn is_awaited(&self, by: u8, seen: &Reply) -> bool
        requires { by < self.now.ground.sizes.threads }
        ensures { IsTrue result ↔ IsAwaitedReply by (graph_of self.now) seen.now }
    {
        match *seen {
            Reply::Epoch(epoch) => epoch >= 1 && epoch <= self.done && self.last_epoch(by) < epoch,
            _ => false,
        }
    }

    /// The epoch of a caller's last entry.
    fn last_epoch(&self, by: u8) -> u32
        requires { by < self.now.ground.sizes.threads }
        ensures { result ≡ (graph_of self.now).entered by }
    {
        self.entered[by as usize]
    }

    /// Whether a call may be entered with this address and reply, as far as these rest on more
    /// than the graph.
    fn may_be_seen(&self, by: u8, call: &Call, address: u32, seen: &Reply) -> bool
        requires thread { by < self.now.ground.sizes.threads }
        requires range { IsInRange self.now.ground call.now }
        ensures { IsTrue result ↔ MayBeSeen self.now.ground by (graph_of self.now) call.now address seen.now }
    {
        match *call {
            Call::New(_, layout) => self.may_be_born(layout, 0, address, seen),
            Call::NewArray(_, layout, n) => self.may_be_born(layout, n, address, seen),
            Call::Collect => self.is_awaited(by, seen),
            _ => true,
        }
    }

    /// The change that an answered call makes, where it is legal next.
    fn answered(
        &self,
        by: u8,
        epoch: u32,
        call: &Call,
        reply: &Reply,
        address: u32,
    ) -> Option<Change>
        ensures { IsDecided self.now.ground by (graph_of self.now)
            (λ g'. CallFollows self.now.ground by epoch call.now reply.now address (graph_of self.now) g') result }
    {
        if !self.is_by_thread(by, epoch) || !self.ground.is_in_range(call) {
            return None;
        }
        if !self.may_be_seen(by, call, address, reply) {
            return None;
        }
        let plan = self.plan(by, call, address, reply);
        if !plan.reply.is_same(reply) {
            return None;
        }
        if address != told_address(call, reply, address) {
            return None;
        }
        Some(plan.change)
    }

    /// Whether a thread is the caller, after so many pauses.
    fn is_by_thread(&self, by: u8, epoch: u32) -> bool
        ensures { IsTrue result ↔ ((by < self.now.ground.sizes.threads) × (epoch ≡ self.now.paused)) }
    {
        u32::from(by) < self.ground.threads() && epoch == self.paused
    }

    /// Whether a mutator or the collector is the caller, after so many pauses.
    fn is_by_sweeper(&self, by: u8, epoch: u32) -> bool
        ensures { IsTrue result ↔ IsBySweeper self.now.ground by epoch (graph_of self.now) }
    {
        u32::from(by) <= self.ground.threads() && epoch == self.paused
    }
}

/// So many objects without a mark. An error is want of memory.
fn unmarked(alloc: Global, count: u32) -> Result<Vec<bool>, AllocError>
    ensures { IfOk result (λ marks. vec_len marks ≡ count) }
{
    let mut marks = Vec::new(alloc);
    marks.resize(count as usize, false)?;
    Ok(marks)
}

/// The address in the entry of an answered call: that of a birth, and 0 otherwise.
fn told_address(call: &Call, reply: &Reply, address: u32) -> u32
    ensures { result ≡ told_address call.now reply.now address }
{
    match call {
        Call::New(..) | Call::NewArray(..) => { if is_full(reply) { 0 } else { address } }
        _ => 0,
    }
}

/// Whether the end of an epoch may leave an object as it is.
fn is_settled(object: &KeptObject, epoch: u32) -> bool
    ensures { (points : List (Option ℕ)) (numbers : List ℕ) → IsTrue result ↔ IsSettled epoch (object_of points numbers (Some object.now)) }
{
    let in_time = match object.finalized {
        Some(pauses) => pauses < epoch,
        None => false,
    };
    let swept = if object.tie.is_none() {
        object.released
    } else {
        object.queued
    };
    (swept || !object.condemned) && (object.released || !in_time)
}
