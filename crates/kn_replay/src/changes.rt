//! Changes of a graph as data, and what makes them. A change is made only where it fits (`IsFit` in
//! `specs/ChangesMade.antt`), and then the graph is the one that `changed` there says.

ghost use Rattle.std.specs.Prelude.{◌≡◌, ◌+◌, ◌^◌, ◌<◌, MatchResult, vec_len, vec_capacity, false};
ghost use Rattle.kn_graph.specs.Graph.{with_entered};
ghost use Rattle.kn_objects.specs.Replay.{graph_of};
ghost use Rattle.kn_replay.specs.ChangesMade.{IsChanged, IsFit, is_birth};

use crate::graph::Graph;
use kn_graph::Reply;
use std::alloc::AllocError;

/// What a birth makes: the address of the first word, the layout, and the number of fields.
#[derive(Clone, Copy)]
pub(crate) struct Newborn {
    pub address: u32,
    pub layout: u8,
    pub length: u32,
}

/// What a call or an event changes in a graph (`changed` in `specs/ChangesMade.antt`).
#[derive(Clone, Copy)]
pub(crate) enum Change {
    Nothing,
    /// A local of the thread and its value.
    Local(u8, Option<u32>),
    Global(u8, Option<u32>),
    Stable(u8, Option<u32>),
    /// A weak or a back name is made.
    Weak(u8, u32),
    Back(u8, u32),
    /// The count of a back name.
    Count(u8, u16),
    /// An object, its field and the value, as a reference or as a number.
    Points(u32, u32, Option<u32>),
    Number(u32, u32, u64),
    /// An object, the cleaner and the number that it is tied to.
    Tie(u32, u8, u32),
    /// A birth, and the local that holds the object.
    Birth(u8, Newborn),
    Release(u32),
    Queue(u32),
    Finalize(u32),
    /// An epoch is done.
    Finish(u32),
}

/// What a call answers, and what it changes.
#[derive(Clone, Copy)]
pub(crate) struct Plan {
    pub reply: Reply,
    pub change: Change,
}

impl Graph {
    fn hold_local(&mut self, thread: u8, r: u8, value: Option<u32>)
        requires { IsFit self.old.ground thread (Change.Local r value) (graph_of self.old) }
        ensures { IsChanged thread (Change.Local r value) self.old self.new }
    {
        self.holders.set_local(thread, r, value);
    }

    fn hold_global(&mut self, thread: u8, i: u8, value: Option<u32>)
        requires { IsFit self.old.ground thread (Change.Global i value) (graph_of self.old) }
        ensures { IsChanged thread (Change.Global i value) self.old self.new }
    {
        self.holders.set_global(i, value);
    }

    fn hold_stable(&mut self, thread: u8, h: u8, value: Option<u32>)
        requires { IsFit self.old.ground thread (Change.Stable h value) (graph_of self.old) }
        ensures { IsChanged thread (Change.Stable h value) self.old self.new }
    {
        self.holders.set_stable(h, value);
    }

    fn hold_weak(&mut self, thread: u8, w: u8, n: u32)
        requires { IsFit self.old.ground thread (Change.Weak w n) (graph_of self.old) }
        ensures { IsChanged thread (Change.Weak w n) self.old self.new }
    {
        self.holders.set_weak(w, n);
    }

    fn hold_back(&mut self, thread: u8, b: u8, n: u32)
        requires { IsFit self.old.ground thread (Change.Back b n) (graph_of self.old) }
        ensures { IsChanged thread (Change.Back b n) self.old self.new }
    {
        self.holders.set_back(b, n);
    }

    fn set_count(&mut self, thread: u8, b: u8, n: u16)
        requires { IsFit self.old.ground thread (Change.Count b n) (graph_of self.old) }
        ensures { IsChanged thread (Change.Count b n) self.old self.new }
    {
        self.holders.set_count(b, n);
    }

    fn set_points(&mut self, thread: u8, n: u32, field: u32, value: Option<u32>)
        requires { IsFit self.old.ground thread (Change.Points n field value) (graph_of self.old) }
        ensures { IsChanged thread (Change.Points n field value) self.old self.new }
    {
        self.objects.set_points(n, field, value);
    }

    fn set_number(&mut self, thread: u8, n: u32, field: u32, value: u64)
        requires { IsFit self.old.ground thread (Change.Number n field value) (graph_of self.old) }
        ensures { IsChanged thread (Change.Number n field value) self.old self.new }
    {
        self.objects.set_number(n, field, value);
    }

    fn tie(&mut self, thread: u8, n: u32, cleaner: u8, number: u32)
        requires { IsFit self.old.ground thread (Change.Tie n cleaner number) (graph_of self.old) }
        ensures { IsChanged thread (Change.Tie n cleaner number) self.old self.new }
    {
        self.objects.tie(n, cleaner, number);
    }

    fn release(&mut self, thread: u8, n: u32)
        requires { IsFit self.old.ground thread (Change.Release n) (graph_of self.old) }
        ensures { IsChanged thread (Change.Release n) self.old self.new }
    {
        self.objects.release(n);
    }

    fn queue(&mut self, thread: u8, n: u32)
        requires { IsFit self.old.ground thread (Change.Queue n) (graph_of self.old) }
        ensures { IsChanged thread (Change.Queue n) self.old self.new }
    {
        self.objects.queue(n);
    }

    fn finalize(&mut self, thread: u8, n: u32)
        requires { IsFit self.old.ground thread (Change.Finalize n) (graph_of self.old) }
        ensures { IsChanged thread (Change.Finalize n) self.old self.new }
    {
        self.objects.finalize(n, self.paused);
    }

    fn finish(&mut self, thread: u8, epoch: u32)
        ensures { IsChanged thread (Change.Finish epoch) self.old self.new }
    {
        self.done = epoch;
    }

    /// A birth. An error is want of memory, and leaves the graph.
    fn bear(&mut self, thread: u8, r: u8, new: Newborn) -> Result<(), AllocError>
        requires fit { IsFit self.old.ground thread (Change.Birth r new) (graph_of self.old) }
        requires few { (graph_of self.old).born + 1 < 2 ^ 32 }
        ensures { MatchResult result (λ _. IsChanged thread (Change.Birth r new) self.old self.new) (λ _. self.new ≡ self.old) }
    {
        self.work.reserve(1)?;
        let n = self.objects.born();
        self.objects.bear(new.address, new.layout, new.length)?;
        add_place(&mut self.work);
        self.holders.set_local(thread, r, Some(n));
        Ok(())
    }

    /// Makes a change. An error is want of memory at a birth, and leaves the graph.
    pub(crate) fn carry_out(&mut self, thread: u8, change: &Change) -> Result<(), AllocError>
        requires fit { IsFit self.old.ground thread change.now (graph_of self.old) }
        requires few { (graph_of self.old).born + 1 < 2 ^ 32 }
        ensures { MatchResult result (λ _. IsChanged thread change.now self.old self.new) (λ _. self.new ≡ self.old) }
    {
        if let Change::Birth(r, new) = *change {
            return self.bear(thread, r, new);
        }
        self.write(thread, change);
        Ok(())
    }

    /// Makes a change that is no birth.
    fn write(&mut self, thread: u8, change: &Change)
        requires fit { IsFit self.old.ground thread change.now (graph_of self.old) }
        requires no_birth { is_birth change.now ≡ false }
        ensures { IsChanged thread change.now self.old self.new }
    {
        match *change {
            Change::Nothing | Change::Birth(..) => {}
            Change::Local(r, value) => self.hold_local(thread, r, value),
            Change::Global(i, value) => self.hold_global(thread, i, value),
            Change::Stable(h, value) => self.hold_stable(thread, h, value),
            Change::Weak(w, n) => self.hold_weak(thread, w, n),
            Change::Back(b, n) => self.hold_back(thread, b, n),
            Change::Count(b, n) => self.set_count(thread, b, n),
            Change::Points(n, field, value) => self.set_points(thread, n, field, value),
            Change::Number(n, field, value) => self.set_number(thread, n, field, value),
            Change::Tie(n, cleaner, number) => self.tie(thread, n, cleaner, number),
            Change::Release(n) => self.release(thread, n),
            Change::Queue(n) => self.queue(thread, n),
            Change::Finalize(n) => self.finalize(thread, n),
            Change::Finish(epoch) => self.finish(thread, epoch),
        }
    }

    /// Notes the epoch of a caller's last entry.
    pub(crate) fn enter(&mut self, by: u8, epoch: u32)
        requires { by < self.old.ground.sizes.threads + 2 }
        ensures after { graph_of self.new ≡ with_entered (graph_of self.old) by epoch }
        ensures ground { self.new.ground ≡ self.old.ground }
    {
        self.entered[by as usize] = epoch;
    }
}

/// One more place on the work list.
fn add_place(work: &mut Vec<u32>)
    requires { vec_len work.old < vec_capacity work.old }
    ensures { vec_len work.new ≡ vec_len work.old + 1 }
{
    if work.push(0).is_err() {
        unreachable!();
    }
}
