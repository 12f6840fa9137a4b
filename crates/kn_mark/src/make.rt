//! A step of a marker, by its action.
ghost use Rattle.std.specs.Prelude.{◌≡◌};
ghost use Rattle.kn_rule.specs.declared.steps.Action.TheVariants.{Loads, Stores, Swaps, Adds, Subtracts};
ghost use Rattle.kn_steps.specs.Made.{word_told};
ghost use Rattle.kn_mark.specs.Steps.{IsNext, step_of};
ghost use Rattle.kn_mark.specs.Agree.{Agrees};
ghost use Rattle.kn_mark.specs.Turns.{Goes};

use crate::marker::Marker;
use crate::next::Next;
use crate::turn::MarkTurn;
use kn_base::Home;
use kn_layout::Layout;
use kn_steps::Steps;

impl Marker {
    // Its next step is a load.
    #[inline(always)]
    pub(crate) fn loads<P: Home, T: Steps<P>>(
        &mut self,
        steps: &mut T,
        layouts: &[Layout],
        next: Next,
    ) -> MarkTurn
        requires agrees { Agrees self.old (T.stand steps.old) }
        requires layouts { (T.stand steps.old).heap.layouts ≡ layouts.now }
        requires next { IsNext self.old next }
        requires act { (step_of self.old next).act ≡ Loads }
        ensures { Goes T.stand T.here T.did T.moved self.old steps.old steps.new self.new result }
    {
        self.lies_in_heap();
        let (kind, place) = self.step(next);
        let word = steps.load(place, kind);
        self.learns(layouts, next, word)
    }

    // Its next step is a store.
    #[inline(always)]
    pub(crate) fn stores<P: Home, T: Steps<P>>(
        &mut self,
        steps: &mut T,
        layouts: &[Layout],
        next: Next,
        word: u64,
    ) -> MarkTurn
        requires agrees { Agrees self.old (T.stand steps.old) }
        requires layouts { (T.stand steps.old).heap.layouts ≡ layouts.now }
        requires next { IsNext self.old next }
        requires act { (step_of self.old next).act ≡ Stores word }
        ensures { Goes T.stand T.here T.did T.moved self.old steps.old steps.new self.new result }
    {
        self.lies_in_heap();
        let (kind, place) = self.step(next);
        steps.store(place, word, kind);
        self.learns(layouts, next, 0)
    }

    // Its next step is an exchange.
    #[inline(always)]
    pub(crate) fn swaps<P: Home, T: Steps<P>>(
        &mut self,
        steps: &mut T,
        layouts: &[Layout],
        next: Next,
        old: u64,
        new: u64,
    ) -> MarkTurn
        requires agrees { Agrees self.old (T.stand steps.old) }
        requires layouts { (T.stand steps.old).heap.layouts ≡ layouts.now }
        requires next { IsNext self.old next }
        requires act { (step_of self.old next).act ≡ Swaps old new }
        ensures { Goes T.stand T.here T.did T.moved self.old steps.old steps.new self.new result }
    {
        self.lies_in_heap();
        let (kind, place) = self.step(next);
        let word = word_told(steps.swap_if(place, old, new, kind));
        self.learns(layouts, next, word)
    }

    // Its next step adds a unit.
    #[inline(always)]
    pub(crate) fn adds<P: Home, T: Steps<P>>(
        &mut self,
        steps: &mut T,
        layouts: &[Layout],
        next: Next,
    ) -> MarkTurn
        requires agrees { Agrees self.old (T.stand steps.old) }
        requires layouts { (T.stand steps.old).heap.layouts ≡ layouts.now }
        requires next { IsNext self.old next }
        requires act { (step_of self.old next).act ≡ Adds 1 }
        ensures { Goes T.stand T.here T.did T.moved self.old steps.old steps.new self.new result }
    {
        self.lies_in_heap();
        let (kind, place) = self.step(next);
        let word = steps.add(place, 1, kind);
        self.learns(layouts, next, word)
    }

    // Its next step gives back a unit.
    #[inline(always)]
    pub(crate) fn gives<P: Home, T: Steps<P>>(
        &mut self,
        steps: &mut T,
        layouts: &[Layout],
        next: Next,
    ) -> MarkTurn
        requires agrees { Agrees self.old (T.stand steps.old) }
        requires layouts { (T.stand steps.old).heap.layouts ≡ layouts.now }
        requires next { IsNext self.old next }
        requires act { (step_of self.old next).act ≡ Subtracts 1 }
        ensures { Goes T.stand T.here T.did T.moved self.old steps.old steps.new self.new result }
    {
        self.lies_in_heap();
        let (kind, place) = self.step(next);
        let word = steps.sub(place, 1, kind);
        self.learns(layouts, next, word)
    }
}

// The word that an exchange found.
#[inline(always)]
fn word_told(told: Result<u64, u64>) -> u64
    ensures { result ≡ word_told told }
{
    match told {
        Ok(word) => word,
        Err(word) => word,
    }
}
