//! What a call answers and what it changes, by what was seen of it. A plan is made before anything
//! is changed; `IsPlan` in `specs/Plans.antt` says what it comes to.

ghost use Rattle.std.specs.Prelude.{◌≡◌, ◌<◌, ◌≤◌, false};
ghost use Rattle.kn_graph.specs.Graph.{length_for};
ghost use Rattle.kn_graph.specs.Answers.{ref_or_null};
ghost use Rattle.kn_graph.specs.Arguments.{IsInRange};
ghost use Rattle.kn_objects.specs.Replay.{graph_of};
ghost use Rattle.kn_replay.specs.Seen.{IsSeen, MayBeBorn, is_full};
ghost use Rattle.kn_replay.specs.Plans.{IsPlan, IsPlanOf, answer_new};

use crate::changes::{Change, Plan};
use crate::graph::Graph;
use kn_base::MOST_BACK_COUNT;
use kn_graph::{Call, Reply};
use kn_layout::FieldKind;

/// A plan that changes nothing.
fn plain(reply: Reply) -> Plan
    ensures { result ≡ record { reply = reply; change = Change.Nothing } }
{
    Plan {
        reply,
        change: Change::Nothing,
    }
}

/// A plan that is answered with `ok`.
fn done(change: Change) -> Plan
    ensures { result ≡ record { reply = Reply.Ok; change = change } }
{
    Plan {
        reply: Reply::Ok,
        change,
    }
}

/// A plan that reads a value into a local.
fn reads(r: u8, value: Option<u32>) -> Plan
    ensures { result ≡ record { reply = ref_or_null value; change = Change.Local r value } }
{
    let reply = if value.is_some() {
        Reply::Ref
    } else {
        Reply::Null
    };
    Plan {
        reply,
        change: Change::Local(r, value),
    }
}

/// A plan that writes the count of a back name.
fn counts(b: u8, count: u16) -> Plan
    ensures { result ≡ record { reply = Reply.Count count; change = Change.Count b count } }
{
    Plan {
        reply: Reply::Count(count),
        change: Change::Count(b, count),
    }
}

/// Whether no cell was found.
pub(crate) fn is_full(reply: &Reply) -> bool
    ensures { result ≡ is_full reply.now }
{
    matches!(reply, Reply::Full)
}

impl Graph {
    fn plan_same(&self, thread: u8, r: u8, s: u8) -> Plan
        requires r { r ≤ 15 }
        requires s { s ≤ 15 }
        ensures { IsPlanOf self.now thread (Call.Same r s) 0 Reply.Ok result }
    {
        if self.local(thread, r) == self.local(thread, s) {
            plain(Reply::Yes)
        } else {
            plain(Reply::No)
        }
    }

    fn plan_get(&self, thread: u8, r: u8, s: u8, field: u32) -> Plan
        requires thread { thread < self.now.ground.sizes.threads }
        requires r { r ≤ 15 }
        requires s { s ≤ 15 }
        ensures { IsPlanOf self.now thread (Call.Get r s field) 0 Reply.Ok result }
    {
        let Some(n) = self.local(thread, s) else {
            return plain(Reply::Nil);
        };
        match self.kind(n, field) {
            None => plain(Reply::NoField),
            Some(FieldKind::Int) => plain(Reply::WrongKind),
            Some(FieldKind::Ref) => reads(r, self.points(n, field)),
        }
    }

    fn plan_set(&self, thread: u8, s: u8, field: u32, r: u8) -> Plan
        requires r { r ≤ 15 }
        requires s { s ≤ 15 }
        ensures { IsPlanOf self.now thread (Call.Set s field r) 0 Reply.Ok result }
    {
        let Some(n) = self.local(thread, s) else {
            return plain(Reply::Nil);
        };
        match self.kind(n, field) {
            None => plain(Reply::NoField),
            Some(FieldKind::Int) => plain(Reply::WrongKind),
            Some(FieldKind::Ref) => done(Change::Points(n, field, self.local(thread, r))),
        }
    }

    fn plan_put(&self, thread: u8, s: u8, field: u32, value: u64) -> Plan
        requires { s ≤ 15 }
        ensures { IsPlanOf self.now thread (Call.Put s field value) 0 Reply.Ok result }
    {
        let Some(n) = self.local(thread, s) else {
            return plain(Reply::Nil);
        };
        match self.kind(n, field) {
            None => plain(Reply::NoField),
            Some(FieldKind::Ref) => plain(Reply::WrongKind),
            Some(FieldKind::Int) => done(Change::Number(n, field, value)),
        }
    }

    fn plan_read(&self, thread: u8, s: u8, field: u32) -> Plan
        requires { s ≤ 15 }
        ensures { IsPlanOf self.now thread (Call.Read s field) 0 Reply.Ok result }
    {
        let Some(n) = self.local(thread, s) else {
            return plain(Reply::Nil);
        };
        match self.kind(n, field) {
            None => plain(Reply::NoField),
            Some(FieldKind::Ref) => plain(Reply::WrongKind),
            Some(FieldKind::Int) => plain(Reply::Int(self.number(n, field))),
        }
    }

    fn plan_pin(&self, thread: u8, h: u8, r: u8) -> Plan
        requires r { r ≤ 15 }
        requires name { h < self.now.ground.sizes.stable }
        ensures { IsPlanOf self.now thread (Call.Pin h r) 0 Reply.Ok result }
    {
        match (self.local(thread, r), self.stable(h)) {
            (None, _) => plain(Reply::Nil),
            (Some(n), None) => done(Change::Stable(h, Some(n))),
            (Some(_), Some(_)) => plain(Reply::Taken),
        }
    }

    fn plan_copy(&self, thread: u8, r: u8, s: u8) -> Plan
        requires thread { thread < self.now.ground.sizes.threads }
        requires r { r ≤ 15 }
        requires s { s ≤ 15 }
        ensures { IsPlanOf self.now thread (Call.Copy r s) 0 Reply.Ok result }
    {
        done(Change::Local(r, self.local(thread, s)))
    }

    fn plan_global_set(&self, thread: u8, i: u8, r: u8) -> Plan
        requires global { i < self.now.ground.sizes.globals }
        requires r { r ≤ 15 }
        ensures { IsPlanOf self.now thread (Call.GlobalSet i r) 0 Reply.Ok result }
    {
        done(Change::Global(i, self.local(thread, r)))
    }

    fn plan_global_get(&self, thread: u8, r: u8, i: u8) -> Plan
        requires thread { thread < self.now.ground.sizes.threads }
        requires r { r ≤ 15 }
        ensures { IsPlanOf self.now thread (Call.GlobalGet r i) 0 Reply.Ok result }
    {
        reads(r, self.global(i))
    }

    fn plan_unpin(&self, thread: u8, h: u8) -> Plan
        requires { h < self.now.ground.sizes.stable }
        ensures { IsPlanOf self.now thread (Call.Unpin h) 0 Reply.Ok result }
    {
        match self.stable(h) {
            None => plain(Reply::Vacant),
            Some(_) => done(Change::Stable(h, None)),
        }
    }

    fn plan_stable_get(&self, thread: u8, r: u8, h: u8) -> Plan
        requires thread { thread < self.now.ground.sizes.threads }
        requires r { r ≤ 15 }
        ensures { IsPlanOf self.now thread (Call.StableGet r h) 0 Reply.Ok result }
    {
        match self.stable(h) {
            None => plain(Reply::Vacant),
            Some(n) => reads(r, Some(n)),
        }
    }

    fn plan_make_weak(&self, thread: u8, w: u8, r: u8) -> Plan
        requires r { r ≤ 15 }
        requires name { w < self.now.ground.sizes.weak }
        ensures { IsPlanOf self.now thread (Call.MakeWeak w r) 0 Reply.Ok result }
    {
        match (self.local(thread, r), self.weak(w)) {
            (None, _) => plain(Reply::Nil),
            (Some(n), None) => done(Change::Weak(w, n)),
            (Some(_), Some(_)) => plain(Reply::Taken),
        }
    }

    fn plan_make_back(&self, thread: u8, b: u8, r: u8) -> Plan
        requires r { r ≤ 15 }
        requires name { b < self.now.ground.sizes.back }
        ensures { IsPlanOf self.now thread (Call.MakeBack b r) 0 Reply.Ok result }
    {
        match (self.local(thread, r), self.back(b)) {
            (None, _) => plain(Reply::Nil),
            (Some(n), None) => done(Change::Back(b, n)),
            (Some(_), Some(_)) => plain(Reply::Taken),
        }
    }

    fn plan_weak_get(&self, thread: u8, r: u8, i: u8) -> Plan
        requires thread { thread < self.now.ground.sizes.threads }
        requires r { r ≤ 15 }
        ensures { IsPlanOf self.now thread (Call.WeakGet r i) 0 Reply.Ok result }
    {
        let Some(n) = self.weak(i) else {
            return plain(Reply::Vacant);
        };
        if self.is_condemned(n) {
            plain(Reply::Nothing)
        } else {
            reads(r, Some(n))
        }
    }

    fn plan_back_get(&self, thread: u8, r: u8, i: u8) -> Plan
        requires thread { thread < self.now.ground.sizes.threads }
        requires r { r ≤ 15 }
        ensures { IsPlanOf self.now thread (Call.BackGet r i) 0 Reply.Ok result }
    {
        let Some(n) = self.back(i) else {
            return plain(Reply::Vacant);
        };
        if self.is_condemned(n) {
            plain(Reply::Nothing)
        } else {
            reads(r, Some(n))
        }
    }

    fn plan_retain(&self, thread: u8, b: u8) -> Plan
        requires { b < self.now.ground.sizes.back }
        ensures { IsPlanOf self.now thread (Call.Retain b) 0 Reply.Ok result }
    {
        let Some(referent) = self.back(b) else {
            return plain(Reply::Vacant);
        };
        if self.is_condemned(referent) {
            return plain(Reply::Nothing);
        }
        let count = self.count(b);
        if u32::from(count) == MOST_BACK_COUNT {
            plain(Reply::Top)
        } else {
            counts(b, count + 1)
        }
    }

    fn plan_release(&self, thread: u8, b: u8) -> Plan
        requires { b < self.now.ground.sizes.back }
        ensures { IsPlanOf self.now thread (Call.Release b) 0 Reply.Ok result }
    {
        let Some(n) = self.back(b) else {
            return plain(Reply::Vacant);
        };
        if self.is_condemned(n) {
            return plain(Reply::Nothing);
        }
        let count = self.count(b);
        if count == 0 {
            plain(Reply::Zero)
        } else {
            counts(b, count - 1)
        }
    }

    fn plan_tie(&self, thread: u8, r: u8, cleaner: u8, number: u32, seen: &Reply) -> Plan
        requires { r ≤ 15 }
        ensures { IsPlanOf self.now thread (Call.Tie r cleaner number) 0 seen.now result }
    {
        let Some(n) = self.local(thread, r) else {
            return plain(Reply::Nil);
        };
        if is_full(seen) {
            return plain(Reply::Full);
        }
        match self.tie_of(n) {
            None => done(Change::Tie(n, cleaner, number)),
            Some(_) => plain(Reply::Already),
        }
    }

    fn plan_new(
        &self,
        thread: u8,
        r: u8,
        layout: u8,
        elements: u32,
        address: u32,
        seen: &Reply,
    ) -> Plan
        requires thread { thread < self.now.ground.sizes.threads }
        requires r { r ≤ 15 }
        requires elements { elements ≤ 60000 }
        requires legal { MayBeBorn self.now.ground (graph_of self.now) layout elements address seen.now }
        ensures { IsPlan self.now.ground thread (graph_of self.now)
            (answer_new thread (graph_of self.now) r layout (length_for self.now.ground layout elements) address seen.now) result }
    {
        if is_full(seen) {
            return plain(Reply::Full);
        }
        done(Change::Birth(r, self.newborn(address, layout, elements)))
    }

    /// The plan of a call of which this was seen.
    pub(crate) fn plan(&self, by: u8, call: &Call, address: u32, seen: &Reply) -> Plan
        requires thread { by < self.now.ground.sizes.threads }
        requires range { IsInRange self.now.ground call.now }
        requires seen { IsSeen self.now.ground (graph_of self.now) call.now address seen.now }
        ensures { IsPlanOf self.now by call.now address seen.now result }
    {
        match *call {
            Call::New(r, layout) => self.plan_new(by, r, layout, 0, address, seen),
            Call::NewArray(r, layout, n) => self.plan_new(by, r, layout, n, address, seen),
            Call::Copy(r, s) => self.plan_copy(by, r, s),
            Call::Clear(r) => done(Change::Local(r, None)),
            Call::Same(r, s) => self.plan_same(by, r, s),
            Call::Get(r, s, field) => self.plan_get(by, r, s, field),
            Call::Set(s, field, r) => self.plan_set(by, s, field, r),
            Call::Put(s, field, value) => self.plan_put(by, s, field, value),
            Call::Read(s, field) => self.plan_read(by, s, field),
            Call::GlobalSet(i, r) => self.plan_global_set(by, i, r),
            Call::GlobalGet(r, i) => self.plan_global_get(by, r, i),
            Call::Pin(h, r) => self.plan_pin(by, h, r),
            Call::Unpin(h) => self.plan_unpin(by, h),
            Call::StableGet(r, h) => self.plan_stable_get(by, r, h),
            Call::MakeWeak(w, r) => self.plan_make_weak(by, w, r),
            Call::WeakGet(r, w) => self.plan_weak_get(by, r, w),
            Call::MakeBack(b, r) => self.plan_make_back(by, b, r),
            Call::Retain(b) => self.plan_retain(by, b),
            Call::Release(b) => self.plan_release(by, b),
            Call::BackGet(r, b) => self.plan_back_get(by, r, b),
            Call::Tie(r, cleaner, number) => self.plan_tie(by, r, cleaner, number, seen),
            Call::Collect => plain(*seen),
        }
    }
}
