//! The search of one caller.
ghost use Rattle.std.specs.Prelude.{◌≡◌, ℕ, ◌+◌, ◌<◌, ◌≤◌, ◌⊎◌, ◌↔◌, IfOk, IsTrue, Some, None, Bool, List, Option, length};
ghost use Rattle.std.specs.Prelude.{slice_set, true};
ghost use Rattle.std.specs.List.{AllByRecursion};
ghost use Rattle.kn_base.specs.Sizes.{IsGood};
ghost use Rattle.kn_base.specs.Classes.{IsClassNumber};
ghost use Rattle.kn_base.specs.Words.{IsFrameWord, packed_frame};
ghost use Rattle.kn_base.specs.declared.kinds.FrameKind.TheVariants.{Owned};
ghost use Rattle.kn_rule.specs.Decoding.{PacksFrame, frame_of};
ghost use Rattle.kn_rule.specs.Requests.{owned_word};
ghost use Rattle.kn_store.specs.Agree.{Agrees, KnowsSame, OnlySaw, SawFull, TellsOver, Turned};
ghost use Rattle.kn_store.specs.Search.{GoesOn, IsBest, IsChoice, IsOver, count_of, first_of, new_search, saw_again, saw_next, with_refused};
ghost use Rattle.kn_store.specs.declared.finder.Seen.{Seen};
ghost use Rattle.kn_store.specs.declared.look.Look.TheVariants.{Looking, Full};

use crate::best::{Best, NOT_OPEN, best_of, rank_for};
use crate::look::Look;
use kn_base::{Caller, FrameKind, FrameNo, FrameWord, Home, Place, Sizes};
use kn_rule::{Kind, area_of};
use kn_steps::Steps;
use std::alloc::{AllocError, Global};
use std::marker::Model;

/// A frame of the area: its word as it was seen last, and whether it was refused in this search.
#[derive(Clone, Copy)]
pub struct Seen {
    pub word: u64,
    pub refused: bool,
}

/// The search of one caller for a frame of a class.
#[derive(Drop)]
pub struct Finder {
    sizes: Sizes,
    class: u16,
    by: u8,
    epoch: u32,
    from: u32,
    count: u32,
    seen: Vec<Seen>,
    early: Option<u16>,
    best: Best,
}

impl Model for Finder {
    ghost use Rattle.std.specs.Prelude.{◌≡◌, ◌≤◌, length, vec_capacity};
    ghost use Rattle.std.specs.List.{AllByRecursion};
    ghost use Rattle.kn_base.specs.Classes.{IsClassNumber};
    ghost use Rattle.kn_base.specs.Sizes.{IsGood, frame_count};
    ghost use Rattle.kn_rule.specs.Decoding.{PacksFrame};
    ghost use Rattle.kn_rule.specs.Requests.{area_count, area_from};
    ghost use Rattle.kn_store.specs.Search.{KeepsBest, Search};

    ghost Value = { Search };

    ghost view = { λ a. record { sizes = a.sizes; class = a.class; by = a.by; epoch = a.epoch; seen = a.seen.items; early = a.early } };

    ghost invariant = { λ a. IsGood a.sizes × (a.from ≡ area_from a.sizes a.class) × (a.count ≡ area_count a.sizes a.class)
        × (length a.seen.items ≤ a.count) × (frame_count a.sizes ≤ vec_capacity a.seen) × IsClassNumber a.class × (a.by ≤ 17)
        × AllByRecursion (λ s. PacksFrame s.word) a.seen.items × KeepsBest a.class a.seen.items (length a.seen.items) a.best.number a.best.rank };
}

impl Finder {
    /// A finder over a heap of these sizes, with room for what it sees of each frame. An error is want
    /// of memory.
    pub fn open(alloc: Global, sizes: &Sizes) -> Result<Finder, AllocError>
        requires { IsGood sizes.now }
        ensures { IfOk result (λ m. m ≡ new_search sizes.now 2 0 0) }
    {
        let (from, count) = area_of(sizes, 2);
        Ok(Finder {
            sizes: *sizes,
            class: 2,
            by: 0,
            epoch: 0,
            from,
            count,
            seen: Vec::with_capacity(alloc, sizes.frames() as usize)?,
            early: None,
            best: Best::none(),
        })
    }

    /// Begins a search for a class. A claim stores the caller `by` and, for a vacant or an empty frame,
    /// the stamp `epoch`.
    pub fn start(&mut self, class: u16, by: Caller, epoch: u32)
        requires class { IsClassNumber class }
        requires caller { by.0 ≤ 17 }
        ensures { self.new ≡ new_search self.old.sizes class by.0 epoch }
    {
        let (from, count) = area_of(&self.sizes, class);
        self.class = class;
        self.by = by.0;
        self.epoch = epoch;
        self.from = from;
        self.count = count;
        self.seen.clear();
        self.early = None;
        self.best = Best::none();
    }

    /// A frame of the area was refused: its page was put home for the request of this search. It is
    /// true exactly where this ends the search. One frame may be refused before it is seen.
    pub fn refuse(&mut self, frame: FrameNo) -> bool
        requires area { (first_of self.old ≤ frame.0) × (frame.0 < first_of self.old + count_of self.old) }
        requires once { (frame.0 < first_of self.old + length self.old.seen) ⊎ (self.old.early ≡ None) }
        ensures refused { self.new ≡ with_refused self.old frame.0 }
        ensures over { IsTrue result ↔ IsOver self.new }
        ensures knows { (seen : List (Option ℕ)) (flags : List Bool) → KnowsSame self.old seen flags
            → KnowsSame self.new seen (slice_set flags frame.0 true) }
        ensures tells { TellsOver self.new }
    {
        self.rules_out(frame);
        self.is_over()
    }

    fn rules_out(&mut self, frame: FrameNo)
        requires area { (first_of self.old ≤ frame.0) × (frame.0 < first_of self.old + count_of self.old) }
        ensures { self.new ≡ with_refused self.old frame.0 }
    {
        let number = usize::from(frame.0) - self.from as usize;
        match self.seen.get(number) {
            Some(seen) => {
                let word = seen.word;
                self.replaces(
                    number,
                    Seen {
                        word,
                        refused: true,
                    },
                );
            }
            None => self.early = Some(frame.0),
        }
    }

    /// Looks at the next frame of the area, or, where all were seen, claims the best one. The search is
    /// not to have ended; in an area without frames it has ended at once.
    #[inline(always)]
    pub fn turn<P: Home, T: Steps<P>>(&mut self, steps: &mut T) -> Look
        requires agrees { Agrees self.old (T.stand steps.old) }
        requires going { ¬ IsOver self.old }
        ensures turned { Turned T.stand T.here T.did self.old steps.old steps.new self.new result }
        ensures agrees { result ≡ Looking → Agrees self.new (T.stand steps.new) }
        ensures full { (result ≡ Full) ↔ IsOver self.new }
        ensures saw { (result ≡ Looking) → OnlySaw (T.stand steps.old) (T.here steps.old) (T.stand steps.new) (T.here steps.new) }
        ensures ended { (result ≡ Full) → SawFull (T.stand steps.old) (T.here steps.old) (T.stand steps.new) (T.here steps.new) }
    {
        if self.seen.len() < self.count as usize {
            self.looks(steps)
        } else {
            match self.chosen() {
                Some(number) => self.claims(steps, number, self.best_seen(number)),
                None => unreachable!(),
            }
        }
    }

    #[inline(always)]
    fn looks<P: Home, T: Steps<P>>(&mut self, steps: &mut T) -> Look
        requires agrees { Agrees self.old (T.stand steps.old) }
        requires next { length self.old.seen < count_of self.old }
        ensures turned { Turned T.stand T.here T.did self.old steps.old steps.new self.new result }
        ensures agrees { result ≡ Looking → Agrees self.new (T.stand steps.new) }
        ensures full { (result ≡ Full) ↔ IsOver self.new }
        ensures saw { (result ≡ Looking) → OnlySaw (T.stand steps.old) (T.here steps.old) (T.stand steps.new) (T.here steps.new) }
        ensures ended { (result ≡ Full) → SawFull (T.stand steps.old) (T.here steps.old) (T.stand steps.new) (T.here steps.new) }
    {
        let frame = self.frame(self.looked());
        let word = steps.load(Place::Frame(frame), Kind::K9);
        self.sees(frame, word);
        self.goes_on()
    }

    // How many frames were looked at.
    #[inline(always)]
    fn looked(&self) -> usize
        ensures { result ≡ length self.now.seen }
    {
        self.seen.len()
    }

    // The frame of this number in the area.
    #[inline(always)]
    fn frame(&self, number: usize) -> u16
        requires { number < count_of self.now }
        ensures { result ≡ first_of self.now + number }
    {
        self.from as u16 + number as u16
    }

    // One frame more was seen.
    #[inline(always)]
    fn sees(&mut self, frame: u16, word: u64)
        requires packs { PacksFrame word }
        requires next { length self.old.seen < count_of self.old }
        requires frame { frame ≡ first_of self.old + length self.old.seen }
        ensures { self.new ≡ saw_next self.old word }
    {
        let refused = match self.early {
            Some(early) => early == frame,
            None => false,
        };
        let number = self.seen.len();
        let seen = Seen { word, refused };
        if self.seen.push(seen).is_err() {
            unreachable!();
        }
        self.best.sees(number, rank_for(self.class, seen));
    }

    #[inline(never)]
    fn claims<P: Home, T: Steps<P>>(&mut self, steps: &mut T, number: usize, seen: Seen) -> Look
        requires agrees { Agrees self.old (T.stand steps.old) }
        requires all { length self.old.seen ≡ count_of self.old }
        requires best { IsBest self.old.class self.old.seen (count_of self.old) number seen }
        requires packs { PacksFrame seen.word }
        ensures turned { Turned T.stand T.here T.did self.old steps.old steps.new self.new result }
        ensures agrees { result ≡ Looking → Agrees self.new (T.stand steps.new) }
        ensures full { (result ≡ Full) ↔ IsOver self.new }
        ensures saw { (result ≡ Looking) → OnlySaw (T.stand steps.old) (T.here steps.old) (T.stand steps.new) (T.here steps.new) }
        ensures ended { (result ≡ Full) → SawFull (T.stand steps.old) (T.here steps.old) (T.stand steps.new) (T.here steps.new) }
    {
        let frame = self.frame(number);
        let new = self.claimed_word(seen.word);
        match steps.swap_if(Place::Frame(frame), seen.word, new, Kind::K10) {
            Ok(_) => Look::Found(FrameNo(frame), seen.word),
            Err(word) => {
                self.sees_again(number, seen, word);
                self.goes_on()
            }
        }
    }

    // The best frame seen, for its number.
    fn best_seen(&self, number: usize) -> Seen
        requires { (s : Seen) × IsBest self.now.class self.now.seen (count_of self.now) number s }
        ensures best { IsBest self.now.class self.now.seen (count_of self.now) number result }
        ensures packs { PacksFrame result.word }
    {
        self.seen[number]
    }

    // Another word was seen of a frame.
    fn sees_again(&mut self, number: usize, seen: Seen, word: u64)
        requires packs { PacksFrame word }
        requires near { number < length self.old.seen }
        ensures { self.new ≡ saw_again self.old number seen word }
    {
        let refused = seen.refused;
        self.replaces(number, Seen { word, refused });
    }

    // What was seen of a frame is replaced.
    fn replaces(&mut self, number: usize, seen: Seen)
        requires packs { PacksFrame seen.word }
        requires near { number < length self.old.seen }
        ensures { self.new ≡ record self.old { seen = slice_set self.old.seen number seen } }
    {
        self.seen[number] = seen;
        self.best = best_of(self.class, self.seen.as_slice());
    }

    // The word with which a frame is claimed, for its word before.
    fn claimed_word(&self, old: u64) -> u64
        requires packs { PacksFrame old }
        ensures { result ≡ packed_frame (owned_word (frame_of old) self.now.class self.now.epoch self.now.by) }
    {
        match FrameWord::unpack(old) {
            None => 0,
            Some(frame) => self.claimed(frame).pack(),
        }
    }

    fn claimed(&self, frame: FrameWord) -> FrameWord
        requires { IsFrameWord frame }
        ensures value { result ≡ owned_word frame self.now.class self.now.epoch self.now.by }
        ensures ranges { IsFrameWord result }
    {
        match frame.kind {
            FrameKind::Vacant | FrameKind::Empty => self.owned(self.class, self.epoch),
            _ => self.owned(frame.class, frame.stamp),
        }
    }

    fn owned(&self, class: u16, stamp: u32) -> FrameWord
        requires { IsClassNumber class }
        ensures value { result ≡ record { kind = Owned; class = class; stamp = stamp; seat = self.now.by } }
        ensures ranges { IsFrameWord result }
    {
        FrameWord {
            kind: FrameKind::Owned,
            class,
            stamp,
            seat: self.by,
        }
    }

    #[inline(always)]
    fn goes_on(&self) -> Look
        ensures { GoesOn self.now result }
    {
        if self.is_over() {
            Look::Full
        } else {
            Look::Looking
        }
    }

    #[inline(always)]
    fn is_over(&self) -> bool
        ensures { IsTrue result ↔ IsOver self.now }
    {
        self.seen.len() == self.count as usize && self.chosen().is_none()
    }

    // The best of the frames seen, the first one of its kind.
    #[inline(always)]
    fn chosen(&self) -> Option<usize>
        ensures { IsChoice self.now.class self.now.seen (length self.now.seen) result }
    {
        if self.best.rank < NOT_OPEN {
            Some(self.best.number)
        } else {
            None
        }
    }
}
