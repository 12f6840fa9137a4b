//! What sweeps and cells make of a view.
ghost use Rattle.std.specs.Prelude.{◌≡◌, ◌+◌, ◌^◌, ◌<◌};
ghost use Rattle.kn_graph.specs.Ground.{IsGoodGround};
ghost use Rattle.kn_graph.specs.Arguments.{IsInRange};
ghost use Rattle.kn_rule.specs.HistoryClauses.{IsRightCall};
ghost use Rattle.kn_rule.specs.Requests;
ghost use Rattle.kn_view.specs.Looks.{sweep_from};
ghost use Rattle.kn_view.specs.Parts.{cell_asked, cell_at, ground_of};

use crate::known::Known;
use crate::looks::SweepPlace;
use crate::searches::class_for;
use kn_base::{Sizes, Span};
use kn_graph::Call;
use kn_layout::Layout;
use kn_rule::{Position, Taken, words_asked};

impl Known {
    /// A sweep begins at an address, or none.
    pub fn begins_sweep(&mut self, frame: u16, at: Option<u32>)
        ensures { self.new ≡ record self.old { sweep = sweep_from frame at } }
    {
        self.sweep = match at {
            None => None,
            Some(at) => Some(SweepPlace { frame, at }),
        };
    }

    /// The cell at an address that the call under way asks for, and its class. There is none where no
    /// call is under way that asks for one.
    pub fn cell_begun(&self, sizes: &Sizes, layouts: &[Layout], address: u32) -> Option<(Span, u16)>
        requires good { IsGoodGround (ground_of sizes.now layouts.now) }
        requires call { IsRightCall (ground_of sizes.now layouts.now) self.now.position }
        ensures { result ≡ cell_at (ground_of sizes.now layouts.now) address self.now.position }
    {
        match self.position {
            Position::Calling(call) => cell_for(sizes, layouts, call, address),
            _ => None,
        }
    }

    /// The first word of a cell is cleared.
    pub fn takes(&mut self, frame: u16, span: Span)
        ensures { self.new ≡ record self.old { taken = Some (record { frame = frame; span = span; cleared = 1 }) } }
    {
        self.taken = Some(Taken {
            frame,
            span,
            cleared: 1,
        });
    }

    /// The next word of the cell is cleared.
    pub fn clears_next(&mut self, taken: Taken)
        requires { taken.cleared + 1 < 2 ^ 32 }
        ensures { self.new ≡ record self.old { taken = Some (record taken { cleared = taken.cleared + 1 }) } }
    {
        self.taken = Some(Taken {
            frame: taken.frame,
            span: taken.span,
            cleared: taken.cleared + 1,
        });
    }
}

fn cell_for(sizes: &Sizes, layouts: &[Layout], call: Call, address: u32) -> Option<(Span, u16)>
    requires good { IsGoodGround (ground_of sizes.now layouts.now) }
    requires fits { IsInRange (ground_of sizes.now layouts.now) call }
    ensures { result ≡ cell_asked (ground_of sizes.now layouts.now) address call
        (Rattle.kn_rule.specs.Requests.words_asked (ground_of sizes.now layouts.now) call) }
{
    match words_asked(sizes, layouts, &call) {
        None => None,
        Some(words) => Some((Span::new(address, words), class_for(sizes, layouts, call))),
    }
}
