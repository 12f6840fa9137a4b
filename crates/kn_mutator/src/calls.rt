//! Calls at their own steps.
ghost use Rattle.std.specs.Prelude.{◌≡◌, ℕ, ◌+◌, ◌<◌, ◌≤◌, Option, Some, None, length, slice_index};
ghost use Rattle.kn_graph.specs.declared.calls.Call.{Call};
ghost use Rattle.kn_graph.specs.declared.calls.Call.TheVariants.{Copy, Clear, Get, Set, Put, Read, GlobalSet, GlobalGet};
ghost use Rattle.kn_base.specs.declared.places.Place.TheVariants.{Body};
ghost use Rattle.kn_layout.specs.declared.layouts.FieldKind.{FieldKind};
ghost use Rattle.kn_rule.specs.Requests;
ghost use Rattle.kn_mutator.specs.declared.task.Task.TheVariants.{Calls};
ghost use Rattle.kn_mutator.specs.After.{judged};
ghost use Rattle.kn_mutator.specs.Agree.{Agrees};
ghost use Rattle.kn_mutator.specs.Turns.{Goes, asks_none};

use crate::mutator::Mutator;
use crate::task::Task;
use kn_base::Place;
use kn_graph::{Call, Reply};
use kn_layout::FieldKind;
use kn_page::Page;
use kn_rule::Kind;
use kn_steps::{Steps, Turn};
use kn_view::{field_of, kind_told};

impl Mutator {
    // The next step of a call.
    pub(crate) fn calls_at<T: Steps<Page>>(
        &mut self,
        steps: &mut T,
        call: Call,
        header: Option<u64>,
    ) -> Turn
        requires agrees { Agrees self.old (T.stand steps.old) (T.here steps.old) }
        requires task { self.old.task ≡ Calls call header }
        ensures { Goes T.stand T.here T.did T.moved asks_none self.old steps.old steps.new self.new result }
    {
        match call {
            Call::Copy(r, s) => self.copies(steps, r, s),
            Call::Clear(r) => self.clears(steps, r),
            Call::Get(r, s, i) => match header {
                None => self.reads_header(steps, call, s),
                Some(_) => self.gets(steps, r, s, i),
            },
            Call::Set(s, i, r) => match header {
                None => self.reads_header(steps, call, s),
                Some(_) => self.sets(steps, s, i, r),
            },
            Call::Put(s, i, n) => match header {
                None => self.reads_header(steps, call, s),
                Some(_) => self.puts(steps, s, i, n),
            },
            Call::Read(s, i) => match header {
                None => self.reads_header(steps, call, s),
                Some(_) => self.reads(steps, s, i),
            },
            Call::GlobalSet(i, r) => self.sets_global(steps, i, r),
            Call::GlobalGet(r, i) => self.gets_global(steps, r, i),
            Call::Collect => self.collects(steps),
            _ => unreachable!(),
        }
    }

    fn copies<T: Steps<Page>>(&mut self, steps: &mut T, r: u8, s: u8) -> Turn
        requires agrees { Agrees self.old (T.stand steps.old) (T.here steps.old) }
        requires task { (header : Option ℕ) × (self.old.task ≡ Calls (Copy r s) header) }
        ensures { Goes T.stand T.here T.did T.moved asks_none self.old steps.old steps.new self.new result }
    {
        let value = self.local(s);
        steps.store(Place::Local(self.by, r), u64::from(value), Kind::K3);
        self.assigns(Call::Copy(r, s), r, value);
        Turn::Moved
    }

    fn clears<T: Steps<Page>>(&mut self, steps: &mut T, r: u8) -> Turn
        requires agrees { Agrees self.old (T.stand steps.old) (T.here steps.old) }
        requires task { (header : Option ℕ) × (self.old.task ≡ Calls (Clear r) header) }
        ensures { Goes T.stand T.here T.did T.moved asks_none self.old steps.old steps.new self.new result }
    {
        steps.store(Place::Local(self.by, r), 0, Kind::K3);
        self.assigns(Call::Clear(r), r, 0);
        Turn::Moved
    }

    // The header of the object in local s, for a call on one of its fields.
    #[inline(always)]
    fn reads_header<T: Steps<Page>>(&mut self, steps: &mut T, call: Call, s: u8) -> Turn
        requires agrees { Agrees self.old (T.stand steps.old) (T.here steps.old) }
        requires task { self.old.task ≡ Calls call None }
        requires field { (i : ℕ) × (kind : FieldKind) × (Requests.field_of call ≡ Some (s, i, kind)) }
        ensures { Goes T.stand T.here T.did T.moved asks_none self.old steps.old steps.new self.new result }
    {
        let word = steps.load(Place::Body(self.local(s)), Kind::K4);
        self.judges(call, word);
        Turn::Moved
    }

    // The header was read: the call goes on, or it is answered.
    #[inline(always)]
    fn judges(&mut self, call: Call, word: u64)
        requires room { length self.old.log < length self.old.calls }
        requires task { self.old.task ≡ Calls call None }
        ensures { self.new ≡ judged self.old call word }
    {
        if let Some((_, field, wanted)) = field_of(call) {
            match kind_told(self.layouts.as_slice(), word, field) {
                None => self.answers(call, Reply::NoField),
                Some(kind) => {
                    if kind == wanted {
                        self.goes_on_behind(word);
                    } else {
                        self.answers(call, Reply::WrongKind);
                    }
                }
            }
        }
    }

    // The call goes on behind the header that was read.
    #[inline(always)]
    fn goes_on_behind(&mut self, word: u64)
        requires { (call : Call) × (header : Option ℕ) × (self.old.task ≡ Calls call header) }
        ensures { (call : Call) → (h : Option ℕ) → self.old.task ≡ Calls call h → self.new ≡ record self.old { task = Calls call (Some word) } }
    {
        match &mut self.task {
            Task::Calls(_, header) => *header = Some(word),
            _ => unreachable!(),
        }
    }

    fn gets<T: Steps<Page>>(&mut self, steps: &mut T, r: u8, s: u8, i: u32) -> Turn
        requires agrees { Agrees self.old (T.stand steps.old) (T.here steps.old) }
        requires task { (header : ℕ) × (self.old.task ≡ Calls (Get r s i) (Some header)) }
        ensures { Goes T.stand T.here T.did T.moved asks_none self.old steps.old steps.new self.new result }
    {
        let word = steps.load(self.field(s, i), Kind::K4);
        self.refers(Call::Get(r, s, i), r, word as u32);
        Turn::Moved
    }

    fn sets<T: Steps<Page>>(&mut self, steps: &mut T, s: u8, i: u32, r: u8) -> Turn
        requires agrees { Agrees self.old (T.stand steps.old) (T.here steps.old) }
        requires task { (header : ℕ) × (self.old.task ≡ Calls (Set s i r) (Some header)) }
        ensures { Goes T.stand T.here T.did T.moved asks_none self.old steps.old steps.new self.new result }
    {
        let value = u64::from(self.local(r));
        steps.store(self.field(s, i), value, Kind::K5);
        self.answers(Call::Set(s, i, r), Reply::Ok);
        Turn::Moved
    }

    fn puts<T: Steps<Page>>(&mut self, steps: &mut T, s: u8, i: u32, n: u64) -> Turn
        requires agrees { Agrees self.old (T.stand steps.old) (T.here steps.old) }
        requires task { (header : ℕ) × (self.old.task ≡ Calls (Put s i n) (Some header)) }
        ensures { Goes T.stand T.here T.did T.moved asks_none self.old steps.old steps.new self.new result }
    {
        steps.store(self.field(s, i), n, Kind::K5);
        self.answers(Call::Put(s, i, n), Reply::Ok);
        Turn::Moved
    }

    fn reads<T: Steps<Page>>(&mut self, steps: &mut T, s: u8, i: u32) -> Turn
        requires agrees { Agrees self.old (T.stand steps.old) (T.here steps.old) }
        requires task { (header : ℕ) × (self.old.task ≡ Calls (Read s i) (Some header)) }
        ensures { Goes T.stand T.here T.did T.moved asks_none self.old steps.old steps.new self.new result }
    {
        let word = steps.load(self.field(s, i), Kind::K4);
        self.answers(Call::Read(s, i), Reply::Int(word));
        Turn::Moved
    }

    fn sets_global<T: Steps<Page>>(&mut self, steps: &mut T, i: u8, r: u8) -> Turn
        requires agrees { Agrees self.old (T.stand steps.old) (T.here steps.old) }
        requires task { (header : Option ℕ) × (self.old.task ≡ Calls (GlobalSet i r) header) }
        ensures { Goes T.stand T.here T.did T.moved asks_none self.old steps.old steps.new self.new result }
    {
        let value = u64::from(self.local(r));
        steps.store(Place::Global(i), value, Kind::K7);
        self.answers(Call::GlobalSet(i, r), Reply::Ok);
        Turn::Moved
    }

    fn gets_global<T: Steps<Page>>(&mut self, steps: &mut T, r: u8, i: u8) -> Turn
        requires agrees { Agrees self.old (T.stand steps.old) (T.here steps.old) }
        requires task { (header : Option ℕ) × (self.old.task ≡ Calls (GlobalGet r i) header) }
        ensures { Goes T.stand T.here T.did T.moved asks_none self.old steps.old steps.new self.new result }
    {
        let word = steps.load(Place::Global(i), Kind::K6);
        self.refers(Call::GlobalGet(r, i), r, word as u32);
        Turn::Moved
    }

    // The place of field i of the object in local s.
    fn field(&self, s: u8, i: u32) -> Place
        requires local { s < 16 }
        requires address { slice_index self.now.locals s ≤ 1000000 }
        requires field { i ≤ 65535 }
        ensures { result ≡ Body (slice_index self.now.locals s + 1 + i) }
    {
        Place::Body(self.local(s) + 1 + i)
    }
}
