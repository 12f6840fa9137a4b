//! The plain memory of a board, and one step of it.
ghost use Rattle.std.specs.Prelude.{◌≡◌, ◌<◌, option_map};
ghost use Rattle.kn_base.specs.Pages.{FrameView};
ghost use Rattle.kn_rule.specs.Allowed.{MayMake};
ghost use Rattle.kn_rule.specs.Places.{Within};
ghost use Rattle.kn_rule.specs.Steps.{callers, does, found};
ghost use Rattle.kn_steps.specs.Made.{Made, MayMove, Moved};
ghost use Rattle.kn_board.specs.World.{MovesTo, Sound, StepsTo, lies_at, slot_at, stand_at, view_at, word_at};

use crate::notes::notes;
use crate::starts::Starts;
use crate::step::StepFound;
use kn_base::{FramePage, Place, Sizes};
use kn_graph::Entry;
use kn_holds::FrameHold;
use kn_layout::Layout;
use kn_rule::{Action, Kind};
use kn_view::{History, Known, left_by};
use std::marker::Model;
use std::mem::replace;

/// The words, the pages in their slots, what is stored of the views, and the history; and where the words
/// of each sort of place begin.
#[derive(Drop)]
pub struct Plain<P: FramePage> {
    pub sizes: Sizes,
    pub starts: Starts,
    pub layouts: Vec<Layout>,
    pub words: Vec<u64>,
    pub slots: Vec<Option<P>>,
    pub known: Vec<Known>,
    pub holds: Vec<FrameHold>,
    pub history: History,
}

impl<P: FramePage> Model for Plain<P> {
    ghost use Rattle.std.specs.Prelude.{◌≡◌, map, option_map};
    ghost use Rattle.kn_view.specs.Parts.{ground_of};
    ghost use Rattle.kn_board.specs.World.{World, Sound};
    ghost use Rattle.kn_board.specs.Parts.{world_of};
    ghost use Rattle.kn_board.specs.Starts.{starts_of};
    ghost use Rattle.kn_board.specs.Stored.{Kept};

    ghost Value = { World };

    ghost view = { λ b. world_of (ground_of b.sizes b.layouts.items) b.words.items (map (option_map P.page) b.slots.items)
        b.known.items b.holds.items b.history };

    ghost invariant = { λ b. Sound (world_of (ground_of b.sizes b.layouts.items) b.words.items (map (option_map P.page) b.slots.items)
        b.known.items b.holds.items b.history)
        × Kept (ground_of b.sizes b.layouts.items) (map (option_map P.page) b.slots.items) b.known.items b.holds.items b.history
        × (b.starts ≡ starts_of b.sizes) };
}

impl<P: FramePage> Plain<P> {
    /// One step of a caller. It answers the word found.
    #[inline(always)]
    pub fn step(&mut self, by: u8, place: Place, kind: Kind, act: Action) -> u64
        requires caller { by < callers self.old.heap.sizes }
        requires may { MayMake self.old.heap by (view_at self.old by) (lies_at self.old) (does kind place act) }
        ensures { (page : FrameView) × StepsTo self.old by (does kind place act) (found result page) self.new
            × Made (stand_at by self.old) (lies_at self.old) (does kind place act) (found result page) (stand_at by self.new) (lies_at self.new) }
    {
        let i = self.starts.index(place);
        let word = self.words[i];
        self.words[i] = left_by(act, word);
        let step = StepFound {
            by,
            place,
            act,
            word,
        };
        let known = &mut self.known[by as usize];
        notes(
            &self.sizes,
            self.layouts.as_slice(),
            known,
            &mut self.holds,
            &mut self.history,
            self.slots.as_slice(),
            kind,
            step,
        );
        word
    }

    pub fn word(&self, place: Place) -> u64
        requires { Within self.now.heap.sizes place }
        ensures { result ≡ word_at self.now place }
    {
        self.words[self.starts.index(place)]
    }

    pub fn page(&self, frame: u16) -> Option<&P>
        ensures { option_map (λ page. P.page page.now) result ≡ slot_at self.now frame }
    {
        self.slots.get(frame as usize)?.as_ref()
    }

    pub fn history(&self) -> &[Entry]
        ensures { result.now ≡ self.now.history }
    {
        self.history.entries()
    }

    /// Between any two steps the rule holds.
    pub fn rule_holds(&self)
        ensures { Sound self.now }
    {
        let _ = &self.words;
    }

    /// The page of an owned frame goes out of its slot, or comes back.
    #[inline(always)]
    pub fn exchange(&mut self, by: u8, frame: u16, page: Option<P>) -> Option<P>
        requires caller { by < callers self.old.heap.sizes }
        requires may { MayMove (stand_at by self.old) (lies_at self.old) frame (option_map P.page page) }
        ensures moves { MovesTo self.old frame (option_map P.page page) (option_map P.page result) self.new }
        ensures moved { Moved (stand_at by self.old) (lies_at self.old) frame (option_map P.page page) (option_map P.page result)
            (stand_at by self.new) (lies_at self.new) }
    {
        replace(&mut self.slots[frame as usize], page)
    }
}
