//! The marker, and its turn.
ghost use Rattle.std.specs.Prelude.{◌≡◌, ℕ, ◌+◌, ◌<◌};
ghost use Rattle.kn_base.specs.Sizes.{IsGood};
ghost use Rattle.kn_graph.specs.Ground.{Ground};
ghost use Rattle.kn_steps.specs.Made.{Stand};
ghost use Rattle.kn_steps.specs.Turns.{OneTurn};
ghost use Rattle.kn_mark.specs.declared.stage.Stage.TheVariants as stages;
ghost use Rattle.kn_mark.specs.declared.turn.MarkTurn.TheVariants.{Over};
ghost use Rattle.kn_mark.specs.Kept.{LiesInHeap, free_share as free_share_of, new_kept, started};
ghost use Rattle.kn_mark.specs.Steps.{IsAt, IsClear, IsFree, IsNext, NamesNear};
ghost use Rattle.kn_mark.specs.Steps as steps_of;
ghost use Rattle.kn_mark.specs.Agree.{Agrees, HasRest, IsAtRef, MayStart, OnlyMarked};
ghost use Rattle.kn_mark.specs.Turns.{Goes, IdleWhereNothing, OverWhereNone, Turned};
ghost use Rattle.arrayvec.specs.ArrayVec.{array_vec_len};

use crate::heap::{cell_limit, fields_told, set_place, set_words};
use crate::hints::{last_of, learn_hints};
use crate::next::Next;
use crate::stage::Stage;
use crate::turn::MarkTurn;
use arrayvec::ArrayVec;
use kn_base::{Home, Place, Sizes};
use kn_layout::Layout;
use kn_marking::{Child, Doing, Work};
use kn_rule::{Action, Kind};
use kn_steps::Steps;
use kn_view::{body_read, child_after, moved_set, paid, reserved, rested, root_read, took_gray};
use std::marker::Model;

/// The greatest number of hints that a marker keeps.
pub const MOST_HINTS: usize = 64;

/// The greatest number of loads of a search.
pub const SEARCH_LOADS: u8 = 64;

/// A marker of a heap. Contracts see a `Kept` of `specs/Kept.antt`.
#[derive(Drop)]
pub struct Marker {
    sizes: Sizes,
    work: Work,
    stage: Stage,
    hints: ArrayVec<u32, 64>,
    cursor: u32,
}

impl Model for Marker {
    ghost use Rattle.kn_mark.specs.Kept.{Kept, LiesInHeap};

    ghost Value = { Kept };

    ghost view = { λ a. record { sizes = a.sizes; work = a.work; stage = a.stage; hints = a.hints.items; cursor = a.cursor } };

    ghost invariant = { λ a. LiesInHeap (record { sizes = a.sizes; work = a.work; stage = a.stage; hints = a.hints.items; cursor = a.cursor }) };
}

impl Marker {
    /// The marker of a heap of these sizes. It is to be started before its first turn.
    pub fn open(sizes: &Sizes) -> Marker
        requires { IsGood sizes.now }
        ensures { result ≡ new_kept sizes.now }
    {
        Marker {
            sizes: *sizes,
            work: free_share(0),
            stage: Stage::Looks(0),
            hints: ArrayVec::new(),
            cursor: 1,
        }
    }

    /// Begins with the marking of an epoch. Where its caller may mark and has the share that it keeps, of
    /// that epoch (`MayStart`), the two agree. The cursor stays, and so does what is under way.
    pub fn start(&mut self, epoch: u32)
        ensures started { self.new ≡ started self.old epoch }
        ensures agrees { (a : Stand) → MayStart self.old epoch a → Agrees self.new a }
    {
        self.work.epoch = epoch;
        self.stage = Stage::Looks(0);
        self.hints.clear();
    }

    /// Makes the next step (`Turned` in `specs/Turns.antt`). `layouts` are those of the heap. `Idle` where
    /// the word loaded is that of a root set that is not to be claimed, or, in search of a gray object, a
    /// mark that is not gray of the epoch. `Over` where the count of open work was loaded and is 0. The
    /// turn of a cell takes time for the number fields before its next reference field, too.
    pub fn turn<P: Home, T: Steps<P>>(&mut self, steps: &mut T, layouts: &[Layout]) -> MarkTurn
        requires agrees { Agrees self.old (T.stand steps.old) }
        requires layouts { (T.stand steps.old).heap.layouts ≡ layouts.now }
        ensures turned { Turned T.stand T.here T.did self.old steps.old steps.new self.new result }
        ensures agrees { Agrees self.new (T.stand steps.new) }
        ensures one { OneTurn T.stand T.here T.did T.moved steps.old steps.new }
        ensures over { OverWhereNone T.stand T.here T.did T.moved steps.old steps.new result }
        ensures idle { IdleWhereNothing T.stand T.here T.did T.moved self.old steps.old steps.new result }
        ensures only { OnlyMarked (T.stand steps.old) (T.here steps.old) (T.stand steps.new) (T.here steps.new) }
        ensures rest { result ≡ Over → HasRest self.old.work.epoch (T.stand steps.new) }
    {
        self.goes_on(steps, layouts)
    }

    // A call for each variant, so that the kind of its step is known where it is compiled.
    #[inline(never)]
    fn goes_on<P: Home, T: Steps<P>>(&mut self, steps: &mut T, layouts: &[Layout]) -> MarkTurn
        requires agrees { Agrees self.old (T.stand steps.old) }
        requires layouts { (T.stand steps.old).heap.layouts ≡ layouts.now }
        ensures { Goes T.stand T.here T.did T.moved self.old steps.old steps.new self.new result }
    {
        let epoch = 4 * u64::from(self.work.epoch);
        match self.next() {
            Next::Gives => self.gives(steps, layouts, Next::Gives),
            Next::Meets(child) => self.loads(steps, layouts, Next::Meets(child)),
            Next::Adds(child, mark) => self.adds(steps, layouts, Next::Adds(child, mark)),
            Next::Grays(child, mark) => self.swaps(
                steps,
                layouts,
                Next::Grays(child, mark),
                mark,
                epoch + 1,
            ),
            Next::LoadsRoot(set, word) => self.loads(steps, layouts, Next::LoadsRoot(set, word)),
            Next::Finishes(set) => self.stores(steps, layouts, Next::Finishes(set), epoch + 3),
            Next::LoadsHeader(cell) => self.loads(steps, layouts, Next::LoadsHeader(cell)),
            Next::LoadsField(cell, header, field) => self.loads(
                steps,
                layouts,
                Next::LoadsField(cell, header, field),
            ),
            Next::Blackens(cell) => self.stores(steps, layouts, Next::Blackens(cell), epoch + 3),
            Next::Claims(set, word) => self.swaps(
                steps,
                layouts,
                Next::Claims(set, word),
                word,
                epoch + 2,
            ),
            Next::LooksAt(set) => self.loads(steps, layouts, Next::LooksAt(set)),
            Next::TakesUp(object) => self.swaps(
                steps,
                layouts,
                Next::TakesUp(object),
                epoch + 1,
                epoch + 2,
            ),
            Next::Counts => self.loads(steps, layouts, Next::Counts),
            Next::Searches(left) => self.loads(steps, layouts, Next::Searches(left)),
        }
    }

    // What it keeps lies in its heap.
    #[inline(always)]
    pub(crate) fn lies_in_heap(&self)
        ensures { LiesInHeap self.now }
    {
        let _ = &self.work;
    }

    // What it does next.
    #[inline(always)]
    fn next(&self) -> Next
        ensures { IsNext self.now result }
    {
        if self.work.owed > 0 {
            return Next::Gives;
        }
        match self.work.child {
            Child::NoChild => self.next_place(),
            Child::Met(child) => Next::Meets(child),
            Child::Seen(child, mark) => Next::Adds(child, mark),
            Child::Reserved(child, mark) => Next::Grays(child, mark),
        }
    }

    #[inline(always)]
    fn next_place(&self) -> Next
        requires { IsClear self.now }
        ensures { IsNext self.now result }
    {
        match self.work.doing {
            Doing::Free => self.next_free(),
            Doing::Set(set, word) => {
                if word < set_words(&self.sizes, set) {
                    Next::LoadsRoot(set, word)
                } else {
                    Next::Finishes(set)
                }
            }
            Doing::Header(cell) => Next::LoadsHeader(cell),
            Doing::Cell(cell, header, field) => {
                if field < fields_told(header) {
                    Next::LoadsField(cell, header, field)
                } else {
                    Next::Blackens(cell)
                }
            }
        }
    }

    #[inline(always)]
    fn next_free(&self) -> Next
        requires { IsFree self.now }
        ensures { IsNext self.now result }
    {
        if let Some((set, word)) = self.work.due {
            return Next::Claims(set, word);
        }
        match self.stage {
            Stage::Looks(set) => Next::LooksAt(set),
            Stage::TakesUp => match last_of(self.hints.as_slice()) {
                Some(object) => Next::TakesUp(object),
                None => Next::Counts,
            },
            Stage::Searches(left) => Next::Searches(left),
        }
    }

    // The kind of the step that it makes next, and its place.
    #[inline(always)]
    pub(crate) fn step(&self, next: Next) -> (Kind, Place)
        requires { IsNext self.now next }
        ensures kind { result.0 ≡ (steps_of.step_of self.now next).kind }
        ensures place { result.1 ≡ (steps_of.step_of self.now next).place }
    {
        match next {
            Next::Gives => (Kind::K21, Place::Pending),
            Next::Adds(_, _) => (Kind::K19, Place::Pending),
            Next::Meets(child) | Next::Grays(child, _) => (Kind::K20, Place::Side(child)),
            Next::LoadsRoot(set, word) => (Kind::K18, set_place(&self.sizes, set, word)),
            Next::Finishes(set) | Next::Claims(set, _) | Next::LooksAt(set) => {
                (Kind::K17, Place::RootSet(set))
            }
            Next::LoadsHeader(cell) => (Kind::K23, Place::Body(cell)),
            Next::LoadsField(cell, _, field) => (Kind::K23, Place::Body(cell + 1 + field)),
            Next::Blackens(cell) => (Kind::K24, Place::Side(cell)),
            Next::TakesUp(object) => (Kind::K22, Place::Side(object)),
            Next::Counts => (Kind::K16, Place::Pending),
            Next::Searches(_) => (Kind::K20, Place::Side(self.cursor)),
        }
    }

    // What it keeps behind its next step, which found a word, and what its turn answers.
    #[inline(always)]
    pub(crate) fn learns(&mut self, layouts: &[Layout], next: Next, word: u64) -> MarkTurn
        requires next { IsNext self.old next }
        requires at_ref { (z : Ground) → z.layouts ≡ layouts.now → IsAtRef z self.old.work.doing }
        requires near { NamesNear self.old next word }
        ensures behind { (z : Ground) → z.sizes ≡ self.old.sizes → z.layouts ≡ layouts.now →
            self.new ≡ steps_of.behind z self.old next word }
        ensures answer { result ≡ steps_of.answer_behind self.old next word }
    {
        let answer = self.answer(next, word);
        let work = self.work_behind(layouts, next, word);
        let stage = self.stage_behind(next, word);
        let cursor = self.cursor_behind(next);
        learn_hints(&mut self.hints, next, word, self.work.epoch, self.cursor);
        self.work = work;
        self.stage = stage;
        self.cursor = cursor;
        answer
    }

    #[inline(always)]
    fn work_behind(&self, layouts: &[Layout], next: Next, word: u64) -> Work
        requires next { IsNext self.now next }
        requires near { NamesNear self.now next word }
        ensures { (z : Ground) → z.sizes ≡ self.now.sizes → z.layouts ≡ layouts.now → result ≡ steps_of.work_behind z self.now next word }
    {
        let work = self.work;
        let gray = 4 * u64::from(self.work.epoch) + 1;
        match next {
            Next::Gives => paid(work),
            Next::Meets(child) => child_after(layouts, work, child, Action::Loads, word),
            Next::Adds(_, _) => reserved(work),
            Next::Grays(child, mark) => {
                child_after(layouts, work, child, Action::Swaps(mark, gray), word)
            }
            Next::LoadsRoot(_, _) => root_read(&self.sizes, layouts, work, word),
            Next::LoadsHeader(_) => body_read(layouts, work, word),
            Next::LoadsField(_, _, _) => body_read(layouts, work, word),
            Next::Finishes(_) | Next::Blackens(_) => rested(work),
            Next::Claims(set, old) => moved_set(work, set, Action::Swaps(old, gray + 1), word),
            Next::LooksAt(set) => moved_set(work, set, Action::Loads, word),
            Next::TakesUp(object) => took_gray(work, object, word),
            Next::Counts | Next::Searches(_) => work,
        }
    }

    #[inline(always)]
    fn stage_behind(&self, next: Next, word: u64) -> Stage
        requires { IsNext self.now next }
        ensures { result ≡ steps_of.stage_behind self.now next word }
    {
        match next {
            Next::LooksAt(set) => after_set(&self.sizes, set),
            Next::Counts => {
                if word == 0 {
                    self.stage
                } else {
                    Stage::Searches(SEARCH_LOADS)
                }
            }
            Next::Searches(left) => {
                if word == 4 * u64::from(self.work.epoch) + 1 {
                    Stage::TakesUp
                } else {
                    self.searched(left)
                }
            }
            _ => self.stage,
        }
    }

    #[inline(always)]
    fn searched(&self, left: u8) -> Stage
        ensures { result ≡ steps_of.searched self.now left }
    {
        if self.cursor + 1 < cell_limit(&self.sizes) {
            if left > 1 {
                Stage::Searches(left - 1)
            } else {
                Stage::TakesUp
            }
        } else {
            Stage::TakesUp
        }
    }

    #[inline(always)]
    fn cursor_behind(&self, next: Next) -> u32
        ensures { result ≡ steps_of.cursor_behind self.now next }
    {
        match next {
            Next::Searches(_) => {
                if self.cursor + 1 < cell_limit(&self.sizes) {
                    self.cursor + 1
                } else {
                    1
                }
            }
            _ => self.cursor,
        }
    }

    #[inline(always)]
    fn answer(&self, next: Next, word: u64) -> MarkTurn
        ensures { result ≡ steps_of.answer_behind self.now next word }
    {
        let epoch = 4 * u64::from(self.work.epoch);
        match next {
            Next::LooksAt(set) => {
                if word < epoch {
                    MarkTurn::Moved
                } else {
                    MarkTurn::Idle(Place::RootSet(set), word)
                }
            }
            Next::Counts => {
                if word == 0 {
                    MarkTurn::Over
                } else {
                    MarkTurn::Moved
                }
            }
            Next::Searches(_) => {
                if word == epoch + 1 {
                    MarkTurn::Moved
                } else {
                    MarkTurn::Idle(Place::Side(self.cursor), word)
                }
            }
            _ => MarkTurn::Moved,
        }
    }
}

// The stage behind a root set.
#[inline(always)]
fn after_set(sizes: &Sizes, set: u8) -> Stage
    requires good { IsGood sizes.now }
    requires near { set < sizes.now.threads + 2 }
    ensures { result ≡ steps_of.after_set sizes.now set }
{
    if u32::from(set) + 1 < sizes.threads + 2 {
        Stage::Looks(set + 1)
    } else {
        Stage::TakesUp
    }
}

// A share of an epoch with nothing under way.
fn free_share(epoch: u32) -> Work
    ensures { result ≡ free_share_of epoch }
{
    Work {
        epoch,
        due: None,
        doing: Doing::Free,
        child: Child::NoChild,
        owed: 0,
    }
}
