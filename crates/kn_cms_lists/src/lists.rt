//! What the core keeps, as lists, and the writes that its steps make of them. What these lists stand
//! for is said by `StandsFor` in `specs/Stands.antt` of `kn_cms`.

ghost use Rattle.std.specs.Prelude.{◌≡◌, ℕ, ◌+◌, ◌-◌, ◌^◌, ◌<◌, ◌≤◌, Option, Some, None, IfOk, [], ◌∷◌, ◌++◌};
ghost use Rattle.std.specs.Prelude.{length, min, replicate};
ghost use Rattle.std.specs.Prelude.{slice_index, slice_index_or, slice_set};
ghost use Rattle.kn_script.specs.Good.{IsGoodScript};
ghost use Rattle.kn_script.specs.Scripts.{ground_of};
ghost use Rattle.kn_cms_rule.specs.declared.stages.Doing.TheVariants.{Free};
ghost use Rattle.kn_cms_lists.specs.Kept.{answered_lists, calls_of_threads, epoch_at, next_call, opening_lists};

use crate::cells::Cells;
use crate::colours::Colours;
use crate::entries::Entries;
use kn_base::{Caller, MOST_CALLS};
use kn_cms_rule::{Doing, Stage};
use kn_graph::{Call, Entry, Event, Reply};
use kn_objects::{Ground, Holders};
use kn_script::{Calls, Script, state_laws};
use std::alloc::{AllocError, Global};
use std::marker::Model;

/// What the core keeps. Contracts see the record `Kept` in `specs/Kept.antt`.
#[derive(Drop)]
pub struct Lists {
    pub ground: Ground,
    pub calls: Vec<Calls>,
    pub made: Vec<u32>,
    pub cells: Cells,
    pub holders: Holders,
    pub colours: Colours,
    pub doing: Vec<Doing>,
    pub stage: Stage,
    pub snapshot: Option<u32>,
    pub history: Entries,
}

impl Model for Lists {
    ghost use Rattle.kn_cms_lists.specs.Kept.{Kept};

    ghost Value = { Kept };

    ghost view = { λ l. record {
      ground = l.ground;
      calls = l.calls.items;
      made = l.made.items;
      cells = l.cells;
      holders = l.holders;
      colours = l.colours;
      doing = l.doing.items;
      stage = l.stage;
      snapshot = l.snapshot;
      history = l.history;
    } };
}

impl Lists {
    /// The lists before all steps of a script. An error is want of memory.
    pub fn open(alloc: Global, script: &Script) -> Result<Lists, AllocError>
        requires good { IsGoodScript script.now }
        ensures { IfOk result (λ lists. lists ≡ opening_lists (ground_of script.now) script.now.threads) }
    {
        state_laws();
        let ground = Ground::open(alloc, &script.sizes, &script.layouts)?;
        let sizes = ground.sizes();
        let threads = sizes.threads as usize;
        let cells = Cells::open(alloc, MOST_CALLS as usize, sizes.heap_words() as usize)?;
        let holders = Holders::open(alloc, sizes)?;
        let colours = Colours::open(alloc, MOST_CALLS as usize)?;
        let history = Entries::open(alloc, MOST_CALLS as usize + 1)?;
        let calls = copy_threads(alloc, &script.threads)?;
        let made = zeros(alloc, threads)?;
        let doing = free_threads(alloc, threads)?;
        Ok(Lists {
            ground,
            calls,
            made,
            cells,
            holders,
            colours,
            doing,
            stage: Stage::Waiting,
            snapshot: None,
            history,
        })
    }

    /// The first call that a thread has left.
    pub fn next_call(&self, thread: u8) -> Option<Call>
        ensures { result ≡ next_call self.now thread }
    {
        let thread = thread as usize;
        if thread < self.calls.len() {
            let calls = self.calls[thread].as_slice();
            calls.get(number_at(&self.made, thread) as usize).copied()
        } else {
            None
        }
    }

    /// How many calls a thread has answered.
    pub fn answered(&self, thread: u8) -> u32
        ensures { result ≡ min (slice_index self.now.made thread) (length (calls_of_threads self.now.calls thread)) }
    {
        let thread = thread as usize;
        if thread < self.calls.len() {
            let made = number_at(&self.made, thread);
            self.calls[thread].as_slice().len().min(made as usize) as u32
        } else {
            0
        }
    }

    /// The number of pauses so far.
    pub fn epoch(&self) -> u32
        ensures { result ≡ epoch_at self.now.stage }
    {
        match self.stage {
            Stage::Waiting => 0,
            _ => 1,
        }
    }

    /// What a thread is in the middle of.
    pub fn doing(&self, thread: u8) -> Doing
        ensures { result ≡ slice_index_or self.now.doing thread Free }
    {
        let thread = thread as usize;
        if thread < self.doing.len() {
            self.doing[thread]
        } else {
            Doing::Free
        }
    }

    /// A thread has answered its call.
    pub fn answer(&mut self, thread: u8, call: &Call, reply: Reply, address: u32)
        requires room { length self.old.history.list < self.old.history.room }
        requires made { thread < length self.old.made }
        requires doing { thread < length self.old.doing }
        requires few { slice_index self.old.made thread < 2 ^ 32 - 1 }
        ensures { self.new ≡ answered_lists self.old thread call.now reply address }
    {
        let epoch = self.epoch();
        self.history.note(Entry {
            by: Caller(thread),
            epoch,
            what: Event::Call(*call, reply, address),
        });
        self.made[thread as usize] += 1;
        self.doing[thread as usize] = Doing::Free;
    }

    /// A thread goes on to the next step of its call.
    pub fn go_on(&mut self, thread: u8, doing: Doing)
        requires { thread < length self.old.doing }
        ensures { self.new ≡ record self.old { doing = slice_set self.old.doing thread doing } }
    {
        self.doing[thread as usize] = doing;
    }
}

/// The number at a place; 0 past the last one.
fn number_at(numbers: &[u32], place: usize) -> u32
    ensures { result ≡ slice_index numbers.now place }
{
    if place < numbers.len() {
        numbers[place]
    } else {
        0
    }
}

/// So many zeros. An error is want of memory.
fn zeros(alloc: Global, count: usize) -> Result<Vec<u32>, AllocError>
    ensures { IfOk result (λ list. list.items ≡ replicate count 0) }
{
    let mut list = Vec::new(alloc);
    list.resize(count, 0)?;
    Ok(list)
}

/// So many threads between two calls. An error is want of memory.
fn free_threads(alloc: Global, count: usize) -> Result<Vec<Doing>, AllocError>
    ensures { IfOk result (λ list. list.items ≡ replicate count Free) }
{
    let mut list = Vec::new(alloc);
    list.resize(count, Doing::Free)?;
    Ok(list)
}

/// The calls of a thread once more. An error is want of memory.
fn copy_calls(alloc: Global, calls: &Calls) -> Result<Calls, AllocError>
    ensures { IfOk result (λ copy. copy ≡ calls.now) }
{
    let mut copy = Vec::new(alloc);
    copy.extend_from_slice(calls.as_slice())?;
    Ok(Calls::from_vec(copy))
}

/// The calls of each thread once more. An error is want of memory.
fn copy_threads(alloc: Global, threads: &[Calls]) -> Result<Vec<Calls>, AllocError>
    ensures { IfOk result (λ copies. copies.items ≡ threads.now) }
{
    let mut copies = Vec::new(alloc);
    for calls in threads {
        let copy = copy_calls(alloc, calls)?;
        copies.push(copy)?;
    }
    Ok(copies)
}
