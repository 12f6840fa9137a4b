//! The allocator.
ghost use Rattle.std.specs.Prelude.{◌≡◌, ◌≢◌, ℕ, ◌+◌, ◌*◌, ◌<◌, ◌≤◌, ◌↔◌, Bool, IfOk, IsTrue, List, Option, Some, None};
ghost use Rattle.std.specs.Prelude.{false, length, replicate, slice_set, true};
ghost use Rattle.kn_base.specs.Sizes.{IsGood};
ghost use Rattle.kn_base.specs.declared.classes.TheConstants.{LEAST_CELL};
ghost use Rattle.kn_base.specs.declared.numbers.Span.{Span};
ghost use Rattle.kn_rule.specs.Requests;
ghost use Rattle.kn_rule.specs.Requests.{class_for, is_too_long};
ghost use Rattle.kn_steps.specs.Made.{Stand};
ghost use Rattle.kn_steps.specs.Turns.{MetUnswept, OneTurn};
ghost use Rattle.kn_store.specs.Search.{IsOver, with_refused};
ghost use Rattle.kn_store.specs.Agree.{Agrees as SearchAgrees, KnowsSame, OnlySaw, SawFull, TellsOver, Turned as SearchTurned};
ghost use Rattle.kn_store.specs.declared.look.Look.TheVariants.{Looking, Full as LookFull};
ghost use Rattle.kn_alloc.specs.declared.alloc.TheConstants.{CLASSES};
ghost use Rattle.kn_alloc.specs.declared.stage.Hand.{Hand};
ghost use Rattle.kn_alloc.specs.declared.stage.Stage.TheVariants.{Resting, TooLong, Returns, Refuses, Searches, Takes, Clears, Bears, PutsHome};
ghost use Rattle.kn_alloc.specs.declared.stage.AllocTurn.TheVariants.{Moved, Born, Full};
ghost use Rattle.kn_alloc.specs.Keeps.{AreByClass, IsHeaderOf, IsLookRight, Starts, begun, header_asked, new_keeps, readied, stage_after};
ghost use Rattle.kn_alloc.specs.Keeps.{born_mark, stage_behind, word_at, words_of_request};
ghost use Rattle.kn_alloc.specs.Turns.{Turned, IsBornAt, IsFullAt, BearsCell, ClearsWord, GoesBack, IsDenied, IsRefused, Seeks};
ghost use Rattle.kn_alloc.specs.Turns.{TakesPage};
ghost use Rattle.kn_alloc.specs.Agree.{Agrees, HasBegun, IsGetting, IsSweeping, MayTurn, MayRefuse};
ghost use Rattle.kn_alloc.specs.Tells.{IsBehind, IsKept, TellsView};

use crate::stage::{AllocTurn, Hand, Request, Stage, answer_of, born_mark, stage_behind};
use kn_base::{Caller, FrameNo, HeaderWord, Place, Sizes, Span};
use kn_page::Page;
use kn_rule::laws::frame_law;
use kn_rule::{Kind, class_of_words, is_past_frames};
use kn_steps::Steps;
use kn_store::{Finder, Look};
use std::alloc::{AllocError, Global};
use std::marker::Model;

/// How many classes there may be pages of in hand: each class has its number as its place.
pub(crate) const CLASSES: usize = 36;

/// The allocator of one thread.
#[derive(Drop)]
pub struct ThreadAlloc {
    sizes: Sizes,
    by: u8,
    pub(crate) class: u16,
    pub(crate) words: u32,
    header: u64,
    pub(crate) epoch: u32,
    pub(crate) stage: Stage,
    pub(crate) hands: Vec<Option<Hand>>,
    finder: Finder,
}

impl Model for ThreadAlloc {
    ghost use Rattle.std.specs.Prelude.{◌≡◌, ◌≤◌, length};
    ghost use Rattle.kn_base.specs.Sizes.{IsGood};
    ghost use Rattle.kn_base.specs.Classes.{IsClassNumber};
    ghost use Rattle.kn_alloc.specs.declared.alloc.TheConstants.{CLASSES};
    ghost use Rattle.kn_alloc.specs.Keeps.{Keeps};

    ghost Value = { Keeps };

    ghost view = { λ a. record {
      sizes = a.sizes;
      by = a.by;
      class = a.class;
      words = a.words;
      header = a.header;
      epoch = a.epoch;
      stage = a.stage;
      hands = a.hands.items;
      search = a.finder;
    } };

    ghost invariant = { λ a. IsGood a.sizes × (a.by ≤ 17) × (length a.hands.items ≡ CLASSES) };
}

impl ThreadAlloc {
    /// An allocator with no page in hand, over a heap of these sizes. All memory is taken here; an
    /// error is want of it.
    pub fn open(alloc: Global, sizes: &Sizes, by: Caller) -> Result<ThreadAlloc, AllocError>
        requires good { IsGood sizes.now }
        requires caller { by.0 ≤ 17 }
        ensures { IfOk result (λ m. m ≡ new_keeps sizes.now by.0) }
    {
        Ok(ThreadAlloc {
            sizes: *sizes,
            by: by.0,
            class: 2,
            words: 0,
            header: 0,
            epoch: 0,
            stage: Stage::Resting,
            hands: no_hands(alloc)?,
            finder: Finder::open(alloc, sizes)?,
        })
    }

    /// Begins a request of the call that its caller has begun, in the epoch of the caller's view. A
    /// caller whose allocator agrees with its view at rest has one that agrees with it at a request.
    pub fn start(&mut self, request: Request, epoch: u32)
        requires agrees { (a : Stand) × (here : ℕ → Bool) × Agrees self.old a here }
        requires resting { self.old.stage ≡ Resting }
        requires words { LEAST_CELL ≤ words_of_request request }
        requires header { IsHeaderOf request }
        ensures started { Starts self.old (words_of_request request) (header_asked request) epoch self.new }
        ensures agrees { (a : Stand) (here : ℕ → Bool) → Agrees self.old a here
            → HasBegun a (words_of_request request) (header_asked request) epoch → Agrees self.new a here }
        ensures gets { is_too_long self.old.sizes (class_for self.old.sizes (words_of_request request)) (words_of_request request) ≡ false
            → IsGetting self.new.stage }
        ensures kept { IsKept self.old self.new }
    {
        self.starts(request, epoch);
    }

    /// Makes the next step or move of the request (`TurnedAt` in `specs/Turns.antt`). It is to be under
    /// way, and not at a sweep. `Full` where the request is too long or the search ends without a frame
    /// (`IsFullAt`), `Born` in the turn that stores the object's mark (`IsBornAt`). What each answer
    /// leaves of the caller's view is in `specs/Tells.antt`.
    #[inline(always)]
    pub fn turn<T: Steps<Page>>(&mut self, steps: &mut T) -> AllocTurn
        requires agrees { Agrees self.old (T.stand steps.old) (T.here steps.old) }
        requires under_way { MayTurn self.old.stage }
        ensures turned { Turned T.stand T.here T.did T.moved self.old steps.old steps.new self.new result }
        ensures agrees { (¬ IsSweeping self.new.stage) → Agrees self.new (T.stand steps.new) (T.here steps.new) }
        ensures tells { TellsView self.old.stage result (T.stand steps.old) (T.stand steps.new) }
        ensures one { self.old.stage ≢ TooLong → OneTurn T.stand T.here T.did T.moved steps.old steps.new }
        ensures unswept { IsSweeping self.new.stage → MetUnswept T.stand T.here T.did T.moved steps.old steps.new }
        ensures behind { IsBehind result self.new.stage }
        ensures kept { IsKept self.old self.new }
        ensures full { (result ≡ Full) ↔ IsFullAt self.old.stage self.new.search }
        ensures born { (address : ℕ) → (result ≡ Born address) ↔ IsBornAt self.old.stage address }
    {
        self.goes_on(steps)
    }

    #[inline(always)]
    fn goes_on<T: Steps<Page>>(&mut self, steps: &mut T) -> AllocTurn
        requires agrees { Agrees self.old (T.stand steps.old) (T.here steps.old) }
        requires under_way { MayTurn self.old.stage }
        ensures turned { Turned T.stand T.here T.did T.moved self.old steps.old steps.new self.new result }
        ensures agrees { (¬ IsSweeping self.new.stage) → Agrees self.new (T.stand steps.new) (T.here steps.new) }
        ensures tells { TellsView self.old.stage result (T.stand steps.old) (T.stand steps.new) }
    {
        match self.stage {
            Stage::TooLong => self.denies(steps),
            Stage::Returns => self.returns(steps),
            Stage::Refuses(frame, word) => self.gives_back(steps, frame, word),
            Stage::Searches => self.searches(steps),
            Stage::Takes(frame, old) => self.takes(steps, frame, old),
            Stage::Clears(cell, number) => self.clears(steps, cell, number),
            Stage::Bears(cell) => self.bears(steps, cell),
            Stage::Resting | Stage::Sweeps(_) | Stage::PutsHome(_, _) => unreachable!(),
        }
    }

    fn denies<T: Steps<Page>>(&mut self, steps: &mut T) -> AllocTurn
        requires agrees { Agrees self.old (T.stand steps.old) (T.here steps.old) }
        requires stage { self.old.stage ≡ TooLong }
        ensures turned { IsDenied T.stand T.here T.did T.moved self.old steps.old steps.new self.new result }
        ensures agrees { Agrees self.new (T.stand steps.new) (T.here steps.new) }
        ensures tells { TellsView self.old.stage result (T.stand steps.old) (T.stand steps.new) }
    {
        self.goes_to(Stage::Resting);
        AllocTurn::Full
    }

    #[inline(never)]
    fn returns<T: Steps<Page>>(&mut self, steps: &mut T) -> AllocTurn
        requires agrees { Agrees self.old (T.stand steps.old) (T.here steps.old) }
        requires stage { self.old.stage ≡ Returns }
        ensures turned { GoesBack T.stand T.here T.did T.moved self.old steps.old steps.new self.new result }
        ensures agrees { Agrees self.new (T.stand steps.new) (T.here steps.new) }
        ensures tells { TellsView self.old.stage result (T.stand steps.old) (T.stand steps.new) }
    {
        let hand = self.hand_out(self.class_asked());
        let word = hand.home_word();
        let Hand { frame, page, .. } = hand;
        steps.move_page(FrameNo(frame), Some(page));
        self.goes_to(Stage::Refuses(frame, word));
        AllocTurn::Moved
    }

    #[inline(never)]
    fn gives_back<T: Steps<Page>>(&mut self, steps: &mut T, frame: u16, word: u64) -> AllocTurn
        requires agrees { Agrees self.old (T.stand steps.old) (T.here steps.old) }
        requires stage { self.old.stage ≡ Refuses frame word }
        ensures turned { IsRefused T.stand T.here T.did T.moved frame word self.old steps.old steps.new self.new result }
        ensures agrees { Agrees self.new (T.stand steps.new) (T.here steps.new) }
        ensures tells { TellsView self.old.stage result (T.stand steps.old) (T.stand steps.new) }
    {
        steps.store(Place::Frame(frame), word, Kind::K11);
        if self.refuses(frame) {
            self.goes_to(Stage::Resting);
            AllocTurn::Full
        } else {
            self.goes_to(Stage::Searches);
            AllocTurn::Moved
        }
    }

    #[inline(always)]
    fn searches<T: Steps<Page>>(&mut self, steps: &mut T) -> AllocTurn
        requires agrees { Agrees self.old (T.stand steps.old) (T.here steps.old) }
        requires stage { self.old.stage ≡ Searches }
        ensures turned { Seeks T.stand T.here T.did T.moved self.old steps.old steps.new self.new result }
        ensures agrees { (¬ IsSweeping self.new.stage) → Agrees self.new (T.stand steps.new) (T.here steps.new) }
        ensures tells { TellsView self.old.stage result (T.stand steps.old) (T.stand steps.new) }
    {
        let look = self.seeks(steps);
        self.goes_behind(look);
        answer_of(look)
    }

    // Goes to the stage behind a turn of the search.
    #[inline(always)]
    fn goes_behind(&mut self, look: Look)
        requires look { IsLookRight look }
        requires stage { self.old.stage ≡ Searches }
        ensures { self.new ≡ record self.old { stage = stage_behind look } }
    {
        match look {
            Look::Looking => {}
            _ => self.goes_to(stage_behind(look)),
        }
    }

    // The search makes its turn.
    #[inline(always)]
    fn seeks<T: Steps<Page>>(&mut self, steps: &mut T) -> Look
        requires agrees { SearchAgrees self.old.search (T.stand steps.old) }
        requires going { ¬ IsOver self.old.search }
        ensures kept { self.new ≡ record self.old { search = self.new.search } }
        ensures turned { SearchTurned T.stand T.here T.did self.old.search steps.old steps.new self.new.search result }
        ensures agrees { (result ≡ Looking) → SearchAgrees self.new.search (T.stand steps.new) }
        ensures full { (result ≡ LookFull) ↔ IsOver self.new.search }
        ensures saw { (result ≡ Looking) → OnlySaw (T.stand steps.old) (T.here steps.old) (T.stand steps.new) (T.here steps.new) }
        ensures ended { (result ≡ LookFull) → SawFull (T.stand steps.old) (T.here steps.old) (T.stand steps.new) (T.here steps.new) }
    {
        self.finder.turn(steps)
    }

    // A frame is refused in the search. It is true exactly where this ends it.
    fn refuses(&mut self, frame: u16) -> bool
        requires { MayRefuse self.old.search frame }
        ensures refused { self.new ≡ record self.old { search = with_refused self.old.search frame } }
        ensures over { IsTrue result ↔ IsOver self.new.search }
        ensures knows { (seen : List (Option ℕ)) (flags : List Bool) → KnowsSame self.old.search seen flags
            → KnowsSame self.new.search seen (slice_set flags frame true) }
        ensures tells { TellsOver self.new.search }
    {
        self.finder.refuse(FrameNo(frame))
    }

    #[inline(never)]
    fn takes<T: Steps<Page>>(&mut self, steps: &mut T, frame: u16, old: u64) -> AllocTurn
        requires agrees { Agrees self.old (T.stand steps.old) (T.here steps.old) }
        requires stage { self.old.stage ≡ Takes frame old }
        ensures turned { TakesPage T.stand T.here T.did T.moved frame old self.old steps.old steps.new self.new result }
        ensures agrees { Agrees self.new (T.stand steps.new) (T.here steps.new) }
        ensures tells { TellsView self.old.stage result (T.stand steps.old) (T.stand steps.new) }
    {
        match steps.move_page(FrameNo(frame), None) {
            Some(page) => {
                let hand = self.readied(frame, old, page);
                self.tries(hand);
                AllocTurn::Moved
            }
            None => unreachable!(),
        }
    }

    #[inline(always)]
    fn clears<T: Steps<Page>>(&mut self, steps: &mut T, cell: Span, number: u32) -> AllocTurn
        requires agrees { Agrees self.old (T.stand steps.old) (T.here steps.old) }
        requires stage { self.old.stage ≡ Clears cell number }
        ensures turned { ClearsWord T.stand T.here T.did T.moved cell number self.old steps.old steps.new self.new result }
        ensures agrees { Agrees self.new (T.stand steps.new) (T.here steps.new) }
        ensures tells { TellsView self.old.stage result (T.stand steps.old) (T.stand steps.new) }
    {
        frame_law();
        steps.store(
            Place::Body(cell.start + number),
            self.word_at(number),
            Kind::K12,
        );
        self.has_cleared(cell, number);
        AllocTurn::Moved
    }

    // Goes to the stage behind the clearing of a word.
    #[inline(always)]
    fn has_cleared(&mut self, cell: Span, number: u32)
        requires stage { self.old.stage ≡ Clears cell number }
        requires within { number < cell.len }
        ensures { self.new ≡ record self.old { stage = stage_after cell number } }
    {
        if number + 1 == cell.len {
            self.goes_to(Stage::Bears(cell));
        } else {
            match &mut self.stage {
                Stage::Clears(_, number) => *number += 1,
                _ => unreachable!(),
            }
        }
    }

    fn bears<T: Steps<Page>>(&mut self, steps: &mut T, cell: Span) -> AllocTurn
        requires agrees { Agrees self.old (T.stand steps.old) (T.here steps.old) }
        requires stage { self.old.stage ≡ Bears cell }
        ensures turned { BearsCell T.stand T.here T.did T.moved cell self.old steps.old steps.new self.new result }
        ensures agrees { Agrees self.new (T.stand steps.new) (T.here steps.new) }
        ensures tells { TellsView self.old.stage result (T.stand steps.old) (T.stand steps.new) }
    {
        steps.store(Place::Side(cell.start), self.mark(), Kind::K8);
        self.goes_to(Stage::Resting);
        AllocTurn::Born(cell.start)
    }

    fn starts(&mut self, request: Request, epoch: u32)
        requires classes { AreByClass self.old.hands }
        requires words { LEAST_CELL ≤ words_of_request request }
        requires header { IsHeaderOf request }
        ensures { Starts self.old (words_of_request request) (header_asked request) epoch self.new }
    {
        match request {
            Request::Cell {
                layout,
                length,
                words,
            } => {
                let header = HeaderWord {
                    layout,
                    length,
                    extra: 0,
                };
                self.begin(words, header.pack(), epoch);
            }
        }
    }

    fn begin(&mut self, words: u32, header: u64, epoch: u32)
        requires classes { AreByClass self.old.hands }
        requires words { LEAST_CELL ≤ words }
        ensures { Starts self.old words header epoch self.new }
    {
        self.asks_for(words, header, epoch);
        if self.is_too_long() {
            self.goes_to(Stage::TooLong);
        } else {
            self.looks_in_hand();
        }
    }

    fn is_too_long(&self) -> bool
        ensures { result ≡ Requests.is_too_long self.now.sizes self.now.class self.now.words }
    {
        is_past_frames(&self.sizes, self.class, self.words)
    }

    // Keeps what is asked for, and starts the search.
    fn asks_for(&mut self, words: u32, header: u64, epoch: u32)
        requires { LEAST_CELL ≤ words }
        ensures { self.new ≡ begun self.old words header epoch self.old.hands self.old.stage }
    {
        let class = class_of_words(&self.sizes, words);
        self.finder.start(class, Caller(self.by), epoch);
        self.class = class;
        self.words = words;
        self.header = header;
        self.epoch = epoch;
    }

    #[inline(always)]
    pub(crate) fn goes_to(&mut self, stage: Stage)
        ensures { self.new ≡ record self.old { stage = stage } }
    {
        self.stage = stage;
    }

    pub(crate) fn class_asked(&self) -> u16
        ensures { result ≡ self.now.class }
    {
        self.class
    }

    // A word of the cell, when it is cleared.
    #[inline(always)]
    fn word_at(&self, number: u32) -> u64
        ensures { result ≡ word_at self.now number }
    {
        if number == 0 { self.header } else { 0 }
    }

    // The mark with which an object is born.
    fn mark(&self) -> u64
        ensures { result ≡ born_mark self.now.epoch }
    {
        born_mark(self.epoch)
    }
}

fn no_hands(alloc: Global) -> Result<Vec<Option<Hand>>, AllocError>
    ensures { IfOk result (λ hands. hands.items ≡ replicate CLASSES None) }
{
    let mut hands = Vec::with_capacity(alloc, CLASSES)?;
    for _number in 0..CLASSES {
        hands.push(None)?;
    }
    Ok(hands)
}
