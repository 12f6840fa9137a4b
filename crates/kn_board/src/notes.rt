//! What a step makes of what is stored of the views.
ghost use Rattle.std.specs.Prelude.{◌≡◌, map, option_map, slice_get};
ghost use Rattle.kn_base.specs.Pages.{FrameView};
ghost use Rattle.kn_graph.specs.Ground.{IsGoodGround};
ghost use Rattle.kn_rule.specs.Outcomes.{outcome};
ghost use Rattle.kn_rule.specs.Steps.{found, frame_in, word_wanted};
ghost use Rattle.kn_rule.specs.Views.{flattened};
ghost use Rattle.kn_view.specs.Parts.{ground_of};
ghost use Rattle.kn_view.specs.Told.{IsShort};
ghost use Rattle.kn_board.specs.Asks.{Asks};
ghost use Rattle.kn_board.specs.Noted.{Noted};
ghost use Rattle.kn_board.specs.Stored.{HoldsFit, IsWide, PagesFit};
ghost use Rattle.kn_board.specs.World.{IsPageFound};

use crate::frames::{claims, clears, puts_home};
use crate::kinds::{
    bears, blackens, counts_work, gives_unit, goes, loads, loads_state, looks, moves_mark,
    moves_set, polls, reads, reads_cell, reads_root, reserves, stores, stores_phase, takes_gray,
    wants, writes,
};
use crate::step::StepFound;
use kn_base::{FramePage, Sizes};
use kn_holds::FrameHold;
use kn_layout::Layout;
use kn_rule::Kind;
use kn_view::{History, Known};

/// What a step of a kind makes of what is stored of its caller's view and of frames, and of the history.
#[inline(always)]
pub fn notes<P: FramePage>(
    sizes: &Sizes,
    layouts: &[Layout],
    known: &mut Known,
    holds: &mut Vec<FrameHold>,
    history: &mut History,
    slots: &[Option<P>],
    kind: Kind,
    step: StepFound,
)
    requires short { IsShort history.old }
    requires good { IsGoodGround (ground_of sizes.now layouts.now) }
    requires wide { IsWide sizes.now known.old }
    requires fits { HoldsFit sizes.now holds.old.items }
    requires pages { PagesFit sizes.now (map (option_map P.page) slots.now) }
    requires asks { Asks (ground_of sizes.now layouts.now) step.by known.old step.place step.act step.word holds.old.items
        (flattened (slice_get (map (option_map P.page) slots.now) (frame_in step.place))) kind }
    ensures { let z = ground_of sizes.now layouts.now in (page : FrameView) →
        IsPageFound kind (word_wanted step.act) (found step.word page)
        (flattened (slice_get (map (option_map P.page) slots.now) (frame_in step.place))) →
        Noted z step.by known.old known.new holds.old.items holds.new.items history.old history.new
        (λ v. outcome z step.by v step.place step.act (found step.word page) kind) }
{
    match kind {
        Kind::K1 => polls(sizes, layouts, known, history, step),
        Kind::K2 => goes(sizes, layouts, known, step),
        Kind::K3 => writes(sizes, layouts, known, history, step),
        Kind::K4 => loads(sizes, layouts, known, history, step),
        Kind::K5 => stores(sizes, layouts, known, history, step),
        Kind::K6 => reads(sizes, layouts, known, history, step),
        Kind::K7 => stores(sizes, layouts, known, history, step),
        Kind::K8 => bears(sizes, layouts, known, history, step),
        Kind::K9 => looks(sizes, layouts, known, history, step),
        Kind::K10 => claims(sizes, layouts, known, holds, history, slots, step),
        Kind::K11 => puts_home(sizes, layouts, known, holds, history, step),
        Kind::K12 => clears(sizes, layouts, known, holds, step),
        Kind::K13 => wants(sizes, layouts, known, step),
        Kind::K14 => stores_phase(sizes, layouts, known, history, step),
        Kind::K15 => loads_state(sizes, layouts, known, step),
        Kind::K16 => counts_work(sizes, layouts, known, step),
        Kind::K17 => moves_set(sizes, layouts, known, step),
        Kind::K18 => reads_root(sizes, layouts, known, step),
        Kind::K19 => reserves(sizes, layouts, known, step),
        Kind::K20 => moves_mark(sizes, layouts, known, step),
        Kind::K21 => gives_unit(sizes, layouts, known, step),
        Kind::K22 => takes_gray(sizes, layouts, known, step),
        Kind::K23 => reads_cell(sizes, layouts, known, step),
        Kind::K24 => blackens(sizes, layouts, known, step),
        _ => {}
    }
}
