//! What a claim, a frame that goes home and a word of a cell make of what is stored.
ghost use Rattle.std.specs.Prelude.{◌≡◌, ◌<◌, ◌≤◌, List, length, map, option_map, slice_get, slice_set, Some, None};
ghost use Rattle.kn_base.specs.Sizes.{IsGood};
ghost use Rattle.kn_base.specs.Pages.{FrameView};
ghost use Rattle.kn_graph.specs.declared.entries.Entry.{Entry};
ghost use Rattle.kn_graph.specs.Ground.{IsGoodGround};
ghost use Rattle.kn_rule.specs.declared.steps.Kind.TheVariants.{K10, K11, K12};
ghost use Rattle.kn_rule.specs.Decoding.{frame_of};
ghost use Rattle.kn_rule.specs.HistoryClauses.{IsRightCall};
ghost use Rattle.kn_rule.specs.Outcomes.{outcome, sweep_begun};
ghost use Rattle.kn_rule.specs.Steps.{found, word_wanted};
ghost use Rattle.kn_rule.specs.Views.{flattened};
ghost use Rattle.kn_view.specs.Looks.{sweep_from};
ghost use Rattle.kn_view.specs.Parts.{ground_of};
ghost use Rattle.kn_view.specs.Told.{IsShort};
ghost use Rattle.kn_board.specs.Asks.{AsksCell, AsksClaim, AsksClear, AsksHome};
ghost use Rattle.kn_board.specs.Noted.{Noted};
ghost use Rattle.kn_board.specs.Stored.{HoldsFit, IsWide, PagesFit, claimed, hold_at};
ghost use Rattle.kn_board.specs.World.{IsPageFound};

use crate::spans::{frame_with, span_of};
use crate::step::{StepFound, address_in, frame_in};
use kn_base::{FramePage, Sizes};
use kn_holds::FrameHold;
use kn_holds::laws::{cell_law, length_law};
use kn_layout::Layout;
use kn_rule::class_of;
use kn_view::{History, Known, stored_by, wanted_by};

const KIND: u64 = 1 << 56;

/// A claim: one that does not find the word that it wants is a look.
pub fn claims<P: FramePage>(
    sizes: &Sizes,
    layouts: &[Layout],
    known: &mut Known,
    holds: &mut Vec<FrameHold>,
    history: &mut History,
    slots: &[Option<P>],
    step: StepFound,
)
    requires short { IsShort history.old }
    requires good { IsGoodGround (ground_of sizes.now layouts.now) }
    requires wide { IsWide sizes.now known.old }
    requires fits { HoldsFit sizes.now holds.old.items }
    requires pages { PagesFit sizes.now (map (option_map P.page) slots.now) }
    requires asks { AsksClaim (ground_of sizes.now layouts.now) step.by known.old step.place step.act step.word holds.old.items
        (flattened (slice_get (map (option_map P.page) slots.now) (Rattle.kn_rule.specs.Steps.frame_in step.place))) }
    ensures { let z = ground_of sizes.now layouts.now in (page : FrameView) →
        IsPageFound K10 (word_wanted step.act) (found step.word page)
        (flattened (slice_get (map (option_map P.page) slots.now) (Rattle.kn_rule.specs.Steps.frame_in step.place))) →
        Noted z step.by known.old known.new holds.old.items holds.new.items history.old history.new
        (λ v. outcome z step.by v step.place step.act (found step.word page) K10) }
{
    let frame = frame_in(step.place);
    let wanted = wanted_by(step.act);
    if step.word != wanted {
        known.looks_at(history, sizes, layouts, step.by, frame, step.word);
        return;
    }
    length_law();
    owns(holds, slots, frame, step.by, stored_by(step.act));
    known.begins_sweep(frame, sweep_start(sizes, frame, wanted));
}

// The frame is owned, with the page in its slot.
fn owns<P: FramePage>(
    holds: &mut Vec<FrameHold>,
    slots: &[Option<P>],
    frame: u16,
    by: u8,
    word: u64,
)
    requires near { frame < length holds.old.items }
    requires slot { frame < length slots.now }
    requires room { (page : FrameView) → flattened (slice_get (map (option_map P.page) slots.now) frame) ≡ Some page →
        length page.free ≤ (hold_at holds.old.items frame).free.room }
    ensures { (page : FrameView) → flattened (slice_get (map (option_map P.page) slots.now) frame) ≡ Some page →
        holds.new.items ≡ slice_set holds.old.items frame (claimed by word page (hold_at holds.old.items frame)) }
{
    if let Some(page) = &slots[frame as usize] {
        let hold = &mut holds[frame as usize];
        hold.claim(by, word, page.spans(), page.cursor());
    }
}

// Where the sweep of a frame begins that is claimed with this word wanted.
fn sweep_start(sizes: &Sizes, frame: u16, wanted: u64) -> Option<u32>
    requires { IsGood sizes.now }
    ensures { sweep_from frame result ≡ sweep_begun sizes.now frame (frame_of wanted).kind }
{
    if wanted / KIND == 4 {
        Some(span_of(sizes, frame).start)
    } else {
        None
    }
}

/// A frame goes home.
pub fn puts_home(
    sizes: &Sizes,
    layouts: &[Layout],
    known: &mut Known,
    holds: &mut Vec<FrameHold>,
    history: &mut History,
    step: StepFound,
)
    requires short { IsShort history.old }
    requires good { IsGoodGround (ground_of sizes.now layouts.now) }
    requires wide { IsWide sizes.now known.old }
    requires fits { HoldsFit sizes.now holds.old.items }
    requires asks { AsksHome (ground_of sizes.now layouts.now) step.by known.old step.place step.act step.word holds.old.items }
    ensures { let z = ground_of sizes.now layouts.now in (page : FrameView) →
        Noted z step.by known.old known.new holds.old.items holds.new.items history.old history.new
        (λ v. outcome z step.by v step.place step.act (found step.word page) K11) }
{
    let frame = frame_in(step.place);
    let home = span_of(sizes, frame);
    let hold = &mut holds[frame as usize];
    hold.let_go();
    known.puts_home(
        history,
        sizes,
        layouts,
        step.by,
        frame,
        (home, class_of(hold.word())),
        hold.spans(),
    );
}

/// A word of a cell is cleared: the first one, which takes the cell out of its frame, or the next.
pub fn clears(
    sizes: &Sizes,
    layouts: &[Layout],
    known: &mut Known,
    holds: &mut Vec<FrameHold>,
    step: StepFound,
)
    requires good { IsGoodGround (ground_of sizes.now layouts.now) }
    requires fits { HoldsFit sizes.now holds.old.items }
    requires asks { AsksClear (ground_of sizes.now layouts.now) step.by known.old step.place step.act step.word holds.old.items }
    ensures { let z = ground_of sizes.now layouts.now in (page : FrameView) (history : List Entry) →
        Noted z step.by known.old known.new holds.old.items holds.new.items history history
        (λ v. outcome z step.by v step.place step.act (found step.word page) K12) }
{
    match known.taken() {
        Some(taken) => known.clears_next(taken),
        None => begins_cell(sizes, layouts, known, holds, step),
    }
}

fn begins_cell(
    sizes: &Sizes,
    layouts: &[Layout],
    known: &mut Known,
    holds: &mut Vec<FrameHold>,
    step: StepFound,
)
    requires good { IsGoodGround (ground_of sizes.now layouts.now) }
    requires fits { HoldsFit sizes.now holds.old.items }
    requires none { known.old.taken ≡ None }
    requires asks { AsksClear (ground_of sizes.now layouts.now) step.by known.old step.place step.act step.word holds.old.items }
    ensures { let z = ground_of sizes.now layouts.now in (page : FrameView) (history : List Entry) →
        Noted z step.by known.old known.new holds.old.items holds.new.items history history
        (λ v. outcome z step.by v step.place step.act (found step.word page) K12) }
{
    let address = address_in(step.place);
    cell_law();
    length_law();
    if let Some((cell, class)) = known.cell_begun(sizes, layouts, address) {
        let frame = frame_with(sizes, address);
        let start = span_of(sizes, frame).start;
        let hold = &mut holds[frame as usize];
        hold.cut(cell, class, start);
        known.takes(frame, cell);
    }
}
