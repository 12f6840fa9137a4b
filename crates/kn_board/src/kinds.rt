//! What a step of each kind makes of what is stored of its caller's view.
ghost use Rattle.std.specs.Prelude.{◌≡◌, ℕ};
ghost use Rattle.kn_base.specs.Pages.{FrameView};
ghost use Rattle.kn_graph.specs.Ground.{IsGoodGround};
ghost use Rattle.kn_rule.specs.declared.steps.Kind.TheVariants.{K1, K2, K3, K4, K5, K6, K7, K8, K9};
ghost use Rattle.kn_rule.specs.declared.steps.Kind.TheVariants.{K13, K14, K15, K16};
ghost use Rattle.kn_rule.specs.declared.steps.Kind.TheVariants.{K17, K18, K19, K20, K21, K22, K23, K24};
ghost use Rattle.kn_rule.specs.Outcomes.{outcome};
ghost use Rattle.kn_rule.specs.Steps.{found};
ghost use Rattle.kn_view.specs.Parts.{IsReadable, ground_of};
ghost use Rattle.kn_board.specs.Asks.{AsksBirth, AsksGlobal, AsksLoadState, AsksLook, AsksPhase, AsksPoll, AsksState, AsksWrite};
ghost use Rattle.kn_board.specs.Asks.{AsksGray, AsksMark, AsksSet};
ghost use Rattle.kn_view.specs.Shares.{IsCellRead, IsRootRead, MayOwe};
ghost use Rattle.kn_view.specs.Told.{IsShort, Makes, Says};
ghost use Rattle.kn_board.specs.Stored.{IsWide};

use crate::step::{StepFound, address_in, frame_in, local_in, mutator_in, next_of, set_in};
use kn_base::Sizes;
use kn_layout::Layout;
use kn_view::{History, Known, stored_by};

/// A poll.
#[inline(always)]
pub fn polls(
    sizes: &Sizes,
    layouts: &[Layout],
    known: &mut Known,
    history: &mut History,
    step: StepFound,
)
    requires good { IsGoodGround (ground_of sizes.now layouts.now) }
    requires wide { IsWide sizes.now known.old }
    requires asks { AsksPoll (ground_of sizes.now layouts.now) step.by known.old step.place step.act step.word }
    requires short { IsShort history.old }
    ensures { let z = ground_of sizes.now layouts.now in (page : FrameView) →
        Says z known.old known.new history.old history.new (λ v. outcome z step.by v step.place step.act (found step.word page) K1) }
{
    known.polls(
        history,
        sizes,
        layouts,
        step.by,
        step.word,
        next_of(step.act),
    );
}

/// A store of the state.
#[inline(always)]
pub fn goes(sizes: &Sizes, layouts: &[Layout], known: &mut Known, step: StepFound)
    requires { AsksState (ground_of sizes.now layouts.now) step.by known.old step.place step.act step.word }
    ensures { let z = ground_of sizes.now layouts.now in (page : FrameView) →
        Makes z known.old known.new (λ v. outcome z step.by v step.place step.act (found step.word page) K2) }
{
    known.stores_state(stored_by(step.act));
}

/// A store of a local.
#[inline(always)]
pub fn writes(
    sizes: &Sizes,
    layouts: &[Layout],
    known: &mut Known,
    history: &mut History,
    step: StepFound,
)
    requires asks { AsksWrite (ground_of sizes.now layouts.now) step.by known.old step.place step.act step.word }
    requires short { IsShort history.old }
    ensures { let z = ground_of sizes.now layouts.now in (page : FrameView) →
        Says z known.old known.new history.old history.new (λ v. outcome z step.by v step.place step.act (found step.word page) K3) }
{
    known.writes_local(
        history,
        step.by,
        local_in(step.place),
        stored_by(step.act) as u32,
    );
}

/// A load of a header or of a field.
#[inline(always)]
pub fn loads(
    sizes: &Sizes,
    layouts: &[Layout],
    known: &mut Known,
    history: &mut History,
    step: StepFound,
)
    requires asks { IsReadable known.old step.word }
    requires short { IsShort history.old }
    ensures { let z = ground_of sizes.now layouts.now in (page : FrameView) →
        Says z known.old known.new history.old history.new (λ v. outcome z step.by v step.place step.act (found step.word page) K4) }
{
    known.loads_body(history, layouts, step.by, step.word);
}

/// A store of a field or of a global.
#[inline(always)]
pub fn stores(
    sizes: &Sizes,
    layouts: &[Layout],
    known: &mut Known,
    history: &mut History,
    step: StepFound,
)
    requires { IsShort history.old }
    ensures field { let z = ground_of sizes.now layouts.now in (page : FrameView) →
        Says z known.old known.new history.old history.new (λ v. outcome z step.by v step.place step.act (found step.word page) K5) }
    ensures global { let z = ground_of sizes.now layouts.now in (page : FrameView) →
        Says z known.old known.new history.old history.new (λ v. outcome z step.by v step.place step.act (found step.word page) K7) }
{
    known.stores_word(history, step.by);
}

/// A load of a global.
#[inline(always)]
pub fn reads(
    sizes: &Sizes,
    layouts: &[Layout],
    known: &mut Known,
    history: &mut History,
    step: StepFound,
)
    requires asks { AsksGlobal (ground_of sizes.now layouts.now) step.by known.old step.place step.act step.word }
    requires short { IsShort history.old }
    ensures { let z = ground_of sizes.now layouts.now in (page : FrameView) →
        Says z known.old known.new history.old history.new (λ v. outcome z step.by v step.place step.act (found step.word page) K6) }
{
    known.loads_global(history, step.by, step.word as u32);
}

/// A birth.
#[inline(always)]
pub fn bears(
    sizes: &Sizes,
    layouts: &[Layout],
    known: &mut Known,
    history: &mut History,
    step: StepFound,
)
    requires asks { AsksBirth (ground_of sizes.now layouts.now) step.by known.old step.place step.act step.word }
    requires short { IsShort history.old }
    ensures { let z = ground_of sizes.now layouts.now in (page : FrameView) →
        Says z known.old known.new history.old history.new (λ v. outcome z step.by v step.place step.act (found step.word page) K8) }
{
    known.makes_object(history, step.by, address_in(step.place));
}

/// A look at a frame.
#[inline(always)]
pub fn looks(
    sizes: &Sizes,
    layouts: &[Layout],
    known: &mut Known,
    history: &mut History,
    step: StepFound,
)
    requires good { IsGoodGround (ground_of sizes.now layouts.now) }
    requires wide { IsWide sizes.now known.old }
    requires asks { AsksLook (ground_of sizes.now layouts.now) step.by known.old step.place step.act step.word }
    requires short { IsShort history.old }
    ensures { let z = ground_of sizes.now layouts.now in (page : FrameView) →
        Says z known.old known.new history.old history.new (λ v. outcome z step.by v step.place step.act (found step.word page) K9) }
{
    known.looks_at(
        history,
        sizes,
        layouts,
        step.by,
        frame_in(step.place),
        step.word,
    );
}

/// A raise of the epoch wanted, or a load of it.
#[inline(always)]
pub fn wants(sizes: &Sizes, layouts: &[Layout], known: &mut Known, step: StepFound)
    ensures { let z = ground_of sizes.now layouts.now in (page : FrameView) →
        Makes z known.old known.new (λ v. outcome z step.by v step.place step.act (found step.word page) K13) }
{
    known.wants(step.word);
}

/// A store of the phase.
#[inline(always)]
pub fn stores_phase(
    sizes: &Sizes,
    layouts: &[Layout],
    known: &mut Known,
    history: &mut History,
    step: StepFound,
)
    requires wide { IsWide sizes.now known.old }
    requires asks { AsksPhase (ground_of sizes.now layouts.now) step.by known.old step.place step.act step.word }
    requires short { IsShort history.old }
    ensures { let z = ground_of sizes.now layouts.now in (page : FrameView) →
        Says z known.old known.new history.old history.new (λ v. outcome z step.by v step.place step.act (found step.word page) K14) }
{
    known.stores_phase(history, step.by, stored_by(step.act));
}

/// A load of a mutator's state.
#[inline(always)]
pub fn loads_state(sizes: &Sizes, layouts: &[Layout], known: &mut Known, step: StepFound)
    requires wide { IsWide sizes.now known.old }
    requires asks { AsksLoadState (ground_of sizes.now layouts.now) step.by known.old step.place step.act step.word }
    ensures { let z = ground_of sizes.now layouts.now in (page : FrameView) →
        Makes z known.old known.new (λ v. outcome z step.by v step.place step.act (found step.word page) K15) }
{
    known.loads_state(mutator_in(step.place), step.word);
}

/// The store that begins the marking, or a load of the count of open work.
#[inline(always)]
pub fn counts_work(sizes: &Sizes, layouts: &[Layout], known: &mut Known, step: StepFound)
    ensures { let z = ground_of sizes.now layouts.now in (page : FrameView) →
        Makes z known.old known.new (λ v. outcome z step.by v step.place step.act (found step.word page) K16) }
{
    known.counts_work(step.act, step.word);
}

/// A look at a root set, its claim, or its end.
#[inline(always)]
pub fn moves_set(sizes: &Sizes, layouts: &[Layout], known: &mut Known, step: StepFound)
    requires { AsksSet (ground_of sizes.now layouts.now) step.by known.old step.place step.act step.word }
    ensures { let z = ground_of sizes.now layouts.now in (page : FrameView) →
        Makes z known.old known.new (λ v. outcome z step.by v step.place step.act (found step.word page) K17) }
{
    known.moves_set(set_in(step.place), step.act, step.word);
}

/// A load of a word of a root set.
#[inline(always)]
pub fn reads_root(sizes: &Sizes, layouts: &[Layout], known: &mut Known, step: StepFound)
    requires good { IsGoodGround (ground_of sizes.now layouts.now) }
    requires asks { IsRootRead sizes.now known.old.work.doing step.word }
    ensures { let z = ground_of sizes.now layouts.now in (page : FrameView) →
        Makes z known.old known.new (λ v. outcome z step.by v step.place step.act (found step.word page) K18) }
{
    known.reads_root(sizes, layouts, step.word);
}

/// A unit of work that is added.
#[inline(always)]
pub fn reserves(sizes: &Sizes, layouts: &[Layout], known: &mut Known, step: StepFound)
    ensures { let z = ground_of sizes.now layouts.now in (page : FrameView) →
        Makes z known.old known.new (λ v. outcome z step.by v step.place step.act (found step.word page) K19) }
{
    known.reserves();
}

/// A load or an exchange of a mark.
#[inline(always)]
pub fn moves_mark(sizes: &Sizes, layouts: &[Layout], known: &mut Known, step: StepFound)
    requires { AsksMark (ground_of sizes.now layouts.now) step.by known.old step.place step.act step.word }
    ensures { let z = ground_of sizes.now layouts.now in (page : FrameView) →
        Makes z known.old known.new (λ v. outcome z step.by v step.place step.act (found step.word page) K20) }
{
    known.moves_mark(layouts, address_in(step.place), step.act, step.word);
}

/// A unit of work that is given back.
#[inline(always)]
pub fn gives_unit(sizes: &Sizes, layouts: &[Layout], known: &mut Known, step: StepFound)
    ensures { let z = ground_of sizes.now layouts.now in (page : FrameView) →
        Makes z known.old known.new (λ v. outcome z step.by v step.place step.act (found step.word page) K21) }
{
    known.gives_unit();
}

/// The exchange of a gray mark.
#[inline(always)]
pub fn takes_gray(sizes: &Sizes, layouts: &[Layout], known: &mut Known, step: StepFound)
    requires { AsksGray (ground_of sizes.now layouts.now) step.by known.old step.place step.act step.word }
    ensures { let z = ground_of sizes.now layouts.now in (page : FrameView) →
        Makes z known.old known.new (λ v. outcome z step.by v step.place step.act (found step.word page) K22) }
{
    known.takes_gray(address_in(step.place), step.word);
}

/// A load of a word of a scanned cell.
#[inline(always)]
pub fn reads_cell(sizes: &Sizes, layouts: &[Layout], known: &mut Known, step: StepFound)
    requires { IsCellRead known.old.work.doing step.word }
    ensures { let z = ground_of sizes.now layouts.now in (page : FrameView) →
        Makes z known.old known.new (λ v. outcome z step.by v step.place step.act (found step.word page) K23) }
{
    known.reads_cell(layouts, step.word);
}

/// A mark that becomes black.
#[inline(always)]
pub fn blackens(sizes: &Sizes, layouts: &[Layout], known: &mut Known, step: StepFound)
    requires { MayOwe known.old.work }
    ensures { let z = ground_of sizes.now layouts.now in (page : FrameView) →
        Makes z known.old known.new (λ v. outcome z step.by v step.place step.act (found step.word page) K24) }
{
    known.blackens();
}
