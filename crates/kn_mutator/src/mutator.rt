//! The mutator, and its turns in and out.
ghost use Rattle.std.specs.Prelude.{◌≡◌, ℕ, ◌<◌, ◌↔◌, [], ◌∷◌, ◌++◌, Bool, IfOk, IsTrue, length, slice_index, slice_index_or};
ghost use Rattle.std.specs.List.{AllByRecursion};
ghost use Rattle.kn_rule.specs.Allowed.{IsBuilt};
ghost use Rattle.kn_rule.specs.Rule.{fresh};
ghost use Rattle.kn_rule.specs.Steps.{entry_of};
ghost use Rattle.kn_steps.specs.Turns.{MetUnswept, OneTurn};
ghost use Rattle.kn_steps.specs.declared.turns.Turn.TheVariants.{Done, Moved};
ghost use Rattle.kn_script.specs.Good.{IsGoodScript};
ghost use Rattle.kn_script.specs.Scripts.{ground_of};
ghost use Rattle.kn_alloc.specs.Agree.{IsSweeping};
ghost use Rattle.kn_mutator.specs.declared.task.Task.TheVariants.{Leaves, Writes};
ghost use Rattle.kn_mutator.specs.Mutating.{new_mutating};
ghost use Rattle.kn_mutator.specs.Tasks;
ghost use Rattle.kn_mutator.specs.After.{answered, assigned, referred, resting_task, said};
ghost use Rattle.kn_mutator.specs.Agree.{Agrees, HasEnded};
ghost use Rattle.kn_mutator.specs.Turns.{Goes, GoesOrStops, Turned, asks_none};

use crate::gate::Gate;
use crate::task::Task;
use kn_alloc::ThreadAlloc;
use kn_base::{Caller, Place, Sizes};
use kn_graph::{Call, Entry, Event, Reply};
use kn_layout::{Layout, copy_layouts};
use kn_mark::Marker;
use kn_page::Page;
use kn_rule::Kind;
use kn_safepoint::{Enter, Safepoint, Stage};
use kn_script::Script;
use kn_steps::{Steps, Turn};
use kn_view::reply_to_reference;
use std::alloc::{AllocError, Global};
use std::marker::Model;

/// One thread of a script.
#[derive(Drop)]
pub struct Mutator {
    pub(crate) sizes: Sizes,
    pub(crate) layouts: Vec<Layout>,
    pub(crate) by: u8,
    calls: Vec<Call>,
    pub(crate) begun: u32,
    pub(crate) epoch: u32,
    pub(crate) target: Option<u64>,
    pub(crate) locals: [u32; 16],
    pub(crate) task: Task,
    pub(crate) allocator: ThreadAlloc,
    pub(crate) marker: Marker,
    log: Vec<Entry>,
}

impl Model for Mutator {
    ghost use Rattle.std.specs.Prelude.{◌≤◌, length, vec_capacity};
    ghost use Rattle.kn_base.specs.declared.limits.TheConstants.{MOST_CALLS};
    ghost use Rattle.kn_graph.specs.Ground.{IsGoodGround};
    ghost use Rattle.kn_view.specs.Parts.{ground_of};
    ghost use Rattle.kn_mutator.specs.Mutating.{Mutating};

    ghost Value = { Mutating };

    ghost view = { λ m. record {
      heap = ground_of m.sizes m.layouts.items;
      by = m.by;
      calls = m.calls.items;
      begun = m.begun;
      epoch = m.epoch;
      target = m.target;
      locals = m.locals;
      task = m.task;
      alloc = m.allocator;
      marker = m.marker;
      log = m.log.items;
    } };

    ghost invariant = { λ m. IsGoodGround (ground_of m.sizes m.layouts.items) × (length m.calls.items ≤ MOST_CALLS)
        × (length m.calls.items ≤ vec_capacity m.log) };
}

impl Mutator {
    /// The mutator of thread `i`, which has made no turn. All memory is taken here; an error is want of
    /// it.
    pub fn open(alloc: Global, script: &Script, i: u8) -> Result<Mutator, AllocError>
        requires good { IsGoodScript script.now }
        requires thread { i < length script.now.threads }
        requires built { AllByRecursion IsBuilt (slice_index_or script.now.threads i []) }
        ensures new { IfOk result (λ m. m ≡ new_mutating (ground_of script.now) i (slice_index_or script.now.threads i [])) }
        ensures agrees { IfOk result (λ m. (here : ℕ → Bool) →
            Agrees m (record { heap = ground_of script.now; by = i; view = fresh (ground_of script.now) }) here) }
    {
        let calls = calls_of(alloc, script, i)?;
        let log = Vec::with_capacity(alloc, calls.len())?;
        let layouts = copy_layouts(alloc, &script.layouts)?;
        let allocator = ThreadAlloc::open(alloc, &script.sizes, Caller(i))?;
        Ok(Mutator {
            sizes: script.sizes,
            layouts,
            by: i,
            task: first_task(&calls),
            calls,
            begun: 0,
            epoch: 0,
            target: None,
            locals: [0; 16],
            allocator,
            marker: Marker::open(&script.sizes),
            log,
        })
    }

    /// Makes the next step of the task, or moves a page (`Turned` in `specs/Turns.antt`). It must not have
    /// ended. A poll asks the gate for the call that would begin next, by its number. A `gc` raises the epoch
    /// wanted, and then loads the phase turn by turn until that epoch is done; on its way out and in it keeps
    /// its target, and asks no gate. Where it is out and loaded Mark, the next turns are those of its marker,
    /// until it finds no work open; then it loads the phase again. `Idle` where it is out and its safepoint is
    /// idle (`told`), where its marker is (`helped`), where the gate let no call pass, or where it goes on
    /// waiting in a run phase (`waits_on`): the cause of each is told by *turned*;
    /// `Done` in the turn that stores that it has ended. Behind a turn that met an unswept frame and left its
    /// allocator at a sweep it makes no more.
    #[inline(always)]
    pub fn turn<T: Steps<Page>, G: Gate>(&mut self, steps: &mut T, gate: &G) -> Turn
        requires agrees { Agrees self.old (T.stand steps.old) (T.here steps.old) }
        requires going { ¬ HasEnded self.old.task }
        ensures turned { Turned T.stand T.here T.did T.moved (G.told gate.now) self.old steps.old steps.new self.new result }
        ensures agrees { (¬ IsSweeping self.new.alloc.stage) → Agrees self.new (T.stand steps.new) (T.here steps.new) }
        ensures one { OneTurn T.stand T.here T.did T.moved steps.old steps.new }
        ensures unswept { IsSweeping self.new.alloc.stage → MetUnswept T.stand T.here T.did T.moved steps.old steps.new }
        ensures done { (result ≡ Done) ↔ HasEnded self.new.task }
    {
        self.goes_on(steps, gate)
    }

    #[inline(always)]
    fn goes_on<T: Steps<Page>, G: Gate>(&mut self, steps: &mut T, gate: &G) -> Turn
        requires agrees { Agrees self.old (T.stand steps.old) (T.here steps.old) }
        requires going { ¬ HasEnded self.old.task }
        ensures { GoesOrStops T.stand T.here T.did T.moved (G.told gate.now) self.old steps.old steps.new self.new result }
    {
        match self.task {
            Task::Out => self.looks(steps),
            Task::Helps => self.helps(steps),
            Task::GoesIn => self.goes_in(steps),
            Task::Enters => self.enters(steps, gate),
            Task::Polls => self.polls(steps, gate),
            Task::Calls(call, header) => self.calls_at(steps, call, header),
            Task::Births(_) => self.gets_cell(steps),
            Task::Writes(local, value) => self.writes(steps, local, value),
            Task::Waits => self.waits(steps),
            Task::SendsSingle => self.sends_single(steps),
            Task::Leaves => self.leaves(steps),
            Task::Ends => self.ends(steps),
            Task::Ended => unreachable!(),
        }
    }

    /// Whether it has ended.
    pub fn has_ended(&self) -> bool
        ensures { IsTrue result ↔ HasEnded self.now.task }
    {
        matches!(self.task, Task::Ended)
    }

    /// The entries of its calls that were answered, in order.
    pub fn log(&self) -> &[Entry]
        ensures { result.now ≡ self.now.log }
    {
        self.log.as_slice()
    }

    /// The entries that `log` gives.
    pub fn into_log(self) -> Vec<Entry>
        ensures { result.items ≡ self.log }
    {
        self.log
    }

    fn writes<T: Steps<Page>>(&mut self, steps: &mut T, local: u8, value: u32) -> Turn
        requires agrees { Agrees self.old (T.stand steps.old) (T.here steps.old) }
        requires task { self.old.task ≡ Writes local value }
        ensures { Goes T.stand T.here T.did T.moved asks_none self.old steps.old steps.new self.new result }
    {
        steps.store(Place::Local(self.by, local), u64::from(value), Kind::K3);
        self.rests();
        Turn::Moved
    }

    // Its safepoint at a stage.
    #[inline(always)]
    pub(crate) fn safepoint(&self, stage: Stage) -> Safepoint
        ensures { result ≡ record { by = self.now.by; stage = stage } }
    {
        Safepoint::at(Caller(self.by), stage)
    }

    pub(crate) fn goes_to(&mut self, task: Task)
        ensures { self.new ≡ record self.old { task = task } }
    {
        self.task = task;
    }

    // It goes out, and its pages go home first.
    pub(crate) fn goes_out(&mut self) -> Turn
        ensures task { self.new ≡ record self.old { task = Leaves } }
        ensures answer { result ≡ Moved }
    {
        self.task = Task::Leaves;
        Turn::Moved
    }

    // The call of a number.
    pub(crate) fn call_of(&self, number: u32) -> Option<Call>
        ensures { result ≡ Rattle.std.specs.Prelude.slice_get self.now.calls number }
    {
        self.calls.get(number as usize).copied()
    }

    pub(crate) fn local(&self, r: u8) -> u32
        requires { r < 16 }
        ensures { result ≡ slice_index self.now.locals r }
    {
        self.locals[usize::from(r)]
    }

    // What is done between two calls.
    pub(crate) fn rests(&mut self)
        ensures { self.new ≡ record self.old { task = resting_task self.old } }
    {
        self.task = if self.begun as usize >= self.calls.len() {
            Task::Ends
        } else if self.allocator.has_single() {
            Task::SendsSingle
        } else {
            Task::Polls
        };
    }

    // A call is answered in the epoch of the last poll.
    pub(crate) fn says(&mut self, call: Call, reply: Reply, address: u32)
        requires { length self.old.log < length self.old.calls }
        ensures { self.new ≡ record self.old { log = said self.old call reply address } }
    {
        let epoch = self.epoch;
        self.says_in(epoch, call, reply, address);
    }

    // A call is answered in an epoch.
    pub(crate) fn says_in(&mut self, epoch: u32, call: Call, reply: Reply, address: u32)
        requires { length self.old.log < length self.old.calls }
        ensures { self.new ≡ record self.old { log = self.old.log ++ entry_of self.old.by epoch call reply address ∷ [] } }
    {
        let entry = Entry {
            by: Caller(self.by),
            epoch,
            what: Event::Call(call, reply, address),
        };
        if self.log.push(entry).is_err() {
            unreachable!();
        }
    }

    // A call is answered, and nothing is due of it.
    pub(crate) fn answers(&mut self, call: Call, reply: Reply)
        requires { length self.old.log < length self.old.calls }
        ensures { self.new ≡ answered self.old call reply }
    {
        self.says(call, reply, 0);
        self.rests();
    }

    // A local is set, and the call is answered.
    pub(crate) fn assigns(&mut self, call: Call, r: u8, value: u32)
        requires room { length self.old.log < length self.old.calls }
        requires local { r < 16 }
        ensures { self.new ≡ assigned self.old call r value }
    {
        self.locals[usize::from(r)] = value;
        self.answers(call, Reply::Ok);
    }

    // A reference was read into a local, whose store is due.
    pub(crate) fn refers(&mut self, call: Call, r: u8, address: u32)
        requires room { length self.old.log < length self.old.calls }
        requires local { r < 16 }
        ensures { self.new ≡ referred self.old call r address }
    {
        self.locals[usize::from(r)] = address;
        self.says(call, reply_to_reference(address), 0);
        self.task = Task::Writes(r, address);
    }
}

// The calls of thread i.
fn calls_of(alloc: Global, script: &Script, i: u8) -> Result<Vec<Call>, AllocError>
    requires { i < length script.now.threads }
    ensures { IfOk result (λ calls. calls.items ≡ slice_index_or script.now.threads i []) }
{
    Vec::from_slice(alloc, script.threads[usize::from(i)].as_slice())
}

// A thread without calls ends at once.
fn first_task(calls: &[Call]) -> Task
    ensures { result ≡ Rattle.kn_mutator.specs.Mutating.first_task calls.now }
{
    if calls.is_empty() {
        Task::Ends
    } else {
        Task::Out
    }
}

// What a turn comes to, for what the safepoint answered.
pub(crate) fn told(enter: Enter) -> Turn
    ensures { result ≡ Tasks.told enter }
{
    match enter {
        Enter::Idle(place, word) => Turn::Idle(place, word),
        Enter::Moved | Enter::Help(_) | Enter::In(_) => Turn::Moved,
    }
}

pub(crate) fn idle_at(word: u64, idle: bool) -> Turn
    ensures { result ≡ Tasks.idle_at word idle }
{
    if idle {
        Turn::Idle(Place::Phase, word)
    } else {
        Turn::Moved
    }
}
