//! What is stored of one caller's view.
ghost use Rattle.std.specs.Prelude.{◌≡◌, ◌<◌, IfOk, slice_index, slice_set};
ghost use Rattle.kn_base.specs.Sizes.{IsGood};
ghost use Rattle.kn_graph.specs.Ground.{Ground};
ghost use Rattle.kn_rule.specs.Steps.{entry_of, epoch_in, saying};
ghost use Rattle.kn_view.specs.Parts.{new_part};
ghost use Rattle.kn_view.specs.Told.{IsShort, Says};

use crate::history::History;
use crate::looks::{Look, SweepPlace};
use crate::words::pauses_before;
use kn_base::{Caller, Sizes};
use kn_graph::{Call, Entry, Event, Reply};
use kn_marking::{Child, Doing, Work};
use kn_rule::{Position, Taken};
use std::alloc::{AllocError, Global};
use std::marker::Model;

/// What one caller knows, beside the frames that it owns and its log.
#[derive(Drop)]
pub struct Known {
    pub(crate) position: Position,
    pub(crate) polled: u64,
    pub(crate) target: Option<u64>,
    pub(crate) locals: [u32; 16],
    pub(crate) header: Option<u64>,
    pub(crate) looks: Vec<Look>,
    pub(crate) taken: Option<Taken>,
    pub(crate) sweep: Option<SweepPlace>,
    pub(crate) work: Work,
    pub(crate) calls: u32,
    pub(crate) births: u32,
    pub(crate) stored: u64,
    pub(crate) wanted: u64,
    pub(crate) counted: Vec<bool>,
    pub(crate) ended: Vec<bool>,
    pub(crate) over: bool,
}

impl Model for Known {
    ghost use Rattle.std.specs.Prelude.{◌+◌, ◌<◌, ◌^◌, map, option_map};
    ghost use Rattle.std.specs.List.{AllByRecursion};
    ghost use Rattle.kn_view.specs.Parts.{Part};
    ghost use Rattle.kn_view.specs.Looks.{IsBefore, refused_in, seen_in, sweep_at};

    ghost Value = { Part };

    ghost view = { λ k. record {
      position = k.position;
      polled = k.polled;
      target = k.target;
      locals = k.locals;
      header = k.header;
      seen = map (seen_in (k.calls + 1)) k.looks.items;
      refused = map (refused_in (k.calls + 1)) k.looks.items;
      taken = k.taken;
      sweep = option_map sweep_at k.sweep;
      work = k.work;
      stored = k.stored;
      wanted = k.wanted;
      counted = k.counted.items;
      ended = k.ended.items;
      over = k.over;
      calls = k.calls;
      births = k.births;
    } };

    ghost invariant = { λ k. (k.polled < 2 ^ 35) × (k.calls + 2 < 2 ^ 32) × AllByRecursion (IsBefore (k.calls + 2)) k.looks.items };
}

impl Known {
    /// A caller that has made no step. An error is want of memory.
    pub fn open(alloc: Global, sizes: &Sizes) -> Result<Known, AllocError>
        requires { IsGood sizes.now }
        ensures { (z : Ground) → z.sizes ≡ sizes.now → IfOk result (λ k. k ≡ new_part z) }
    {
        let look = Look {
            seen_in: 0,
            word: 0,
            refused_in: 0,
        };
        Ok(Known {
            position: Position::Out,
            polled: 0,
            target: None,
            locals: [0; 16],
            header: None,
            looks: vec![in alloc; look; sizes.frames() as usize]?,
            taken: None,
            sweep: None,
            work: Work {
                epoch: 0,
                due: None,
                doing: Doing::Free,
                child: Child::NoChild,
                owed: 0,
            },
            calls: 0,
            births: 0,
            stored: 0,
            wanted: 0,
            counted: vec![in alloc; false; sizes.threads as usize]?,
            ended: vec![in alloc; false; sizes.threads as usize]?,
            over: true,
        })
    }

    pub fn position(&self) -> Position
        ensures { result ≡ self.now.position }
    {
        self.position
    }

    pub fn taken(&self) -> Option<Taken>
        ensures { result ≡ self.now.taken }
    {
        self.taken
    }

    // The call is answered, and what was read for it is forgotten.
    #[inline(always)]
    pub(crate) fn answers(
        &mut self,
        history: &mut History,
        by: u8,
        call: Call,
        reply: Reply,
        address: u32,
    )
        requires { IsShort history.old }
        ensures { (z : Ground) → Says z self.old self.new history.old history.new (λ v. saying by (epoch_in v) call reply address v) }
    {
        self.header = None;
        history.push(entry_by(by, pauses_before(self.polled), call, reply, address));
    }

    pub(crate) fn local(&self, r: u8) -> u32
        requires { r < 16 }
        ensures { result ≡ slice_index self.now.locals r }
    {
        self.locals[r as usize]
    }

    pub(crate) fn sets_local(&mut self, r: u8, value: u32)
        requires { r < 16 }
        ensures { self.new ≡ record self.old { locals = slice_set self.old.locals r value } }
    {
        self.locals[r as usize] = value;
    }

    pub(crate) fn stands(&mut self, position: Position)
        ensures { self.new ≡ record self.old { position = position } }
    {
        self.position = position;
    }
}

#[inline(always)]
pub(crate) fn entry_by(by: u8, epoch: u32, call: Call, reply: Reply, address: u32) -> Entry
    ensures { result ≡ entry_of by epoch call reply address }
{
    Entry {
        by: Caller(by),
        epoch,
        what: Event::Call(call, reply, address),
    }
}
