//! Pages in hand go home.
ghost use Rattle.std.specs.Prelude.{◌≡◌, ℕ, ◌<◌, ◌↔◌, IsTrue, MatchOption, None};
ghost use Rattle.kn_base.specs.declared.classes.TheConstants.{SINGLE_CLASS};
ghost use Rattle.kn_rule.specs.Views.{owns};
ghost use Rattle.kn_steps.specs.Turns.{OneTurn};
ghost use Rattle.kn_alloc.specs.declared.alloc.TheConstants.{CLASSES};
ghost use Rattle.kn_alloc.specs.declared.stage.Hand.{Hand};
ghost use Rattle.kn_alloc.specs.declared.stage.Stage.TheVariants.{PutsHome, Resting};
ghost use Rattle.kn_alloc.specs.declared.stage.HomeTurn.TheVariants.{Done, Moved};
ghost use Rattle.kn_alloc.specs.Keeps.{HasHand};
ghost use Rattle.kn_alloc.specs.Homes.{IsFirstHome, IsGivenBack, IsNoHand, SendsHome, WentHome};
ghost use Rattle.kn_alloc.specs.Agree.{Agrees, IsIdle, IsNoCall};
ghost use Rattle.kn_alloc.specs.Tells.{IsKept, TellsHome};

use crate::alloc::{CLASSES, ThreadAlloc};
use crate::stage::{Hand, HomeTurn, Stage};
use kn_base::{FrameNo, Place, SINGLE_CLASS};
use kn_page::Page;
use kn_rule::Kind;
use kn_steps::Steps;

impl ThreadAlloc {
    /// The next page in hand goes into its slot, or its frame is given back: a single page first, then
    /// those of rising classes, two turns each. `Done` where the caller owns no frame; then nothing is
    /// done. No request is to be under way, and no call of the caller at its steps (`Calling`).
    pub fn put_home_turn<T: Steps<Page>>(&mut self, steps: &mut T) -> HomeTurn
        requires agrees { Agrees self.old (T.stand steps.old) (T.here steps.old) }
        requires idle { IsIdle self.old.stage }
        requires no_call { IsNoCall (T.stand steps.old).view.position }
        ensures went { WentHome T.stand T.here T.did T.moved self.old steps.old steps.new self.new result }
        ensures agrees { Agrees self.new (T.stand steps.new) (T.here steps.new) }
        ensures tells { TellsHome (T.stand steps.old) (T.stand steps.new) }
        ensures one { (result ≡ Moved) → OneTurn T.stand T.here T.did T.moved steps.old steps.new }
        ensures still { (result ≡ Done) → (steps.new ≡ steps.old) × (self.new ≡ self.old) × (self.new.stage ≡ Resting) }
        ensures idle { IsIdle self.new.stage }
        ensures kept { IsKept self.old self.new }
        ensures done { (result ≡ Done) ↔ ((p : ℕ) → owns (T.stand steps.old).view p ≡ None) }
    {
        self.goes_home(steps)
    }

    fn goes_home<T: Steps<Page>>(&mut self, steps: &mut T) -> HomeTurn
        requires agrees { Agrees self.old (T.stand steps.old) (T.here steps.old) }
        requires idle { IsIdle self.old.stage }
        requires no_call { IsNoCall (T.stand steps.old).view.position }
        ensures went { WentHome T.stand T.here T.did T.moved self.old steps.old steps.new self.new result }
        ensures agrees { Agrees self.new (T.stand steps.new) (T.here steps.new) }
        ensures done { (result ≡ Done) ↔ ((p : ℕ) → owns (T.stand steps.old).view p ≡ None) }
    {
        match self.stage {
            Stage::PutsHome(frame, word) => self.gives_home(steps, frame, word),
            Stage::Resting => match self.next_home() {
                Some(class) => self.sends_home(steps, class),
                None => HomeTurn::Done,
            },
            _ => unreachable!(),
        }
    }

    /// Whether a page for a single object is in hand.
    pub fn has_single(&self) -> bool
        ensures { IsTrue result ↔ ((hand : Hand) × HasHand self.now.hands SINGLE_CLASS hand) }
    {
        self.has_hand(SINGLE_CLASS)
    }

    /// Whether no request is under way and no page goes home.
    pub fn is_resting(&self) -> bool
        ensures { IsTrue result ↔ (self.now.stage ≡ Resting) }
    {
        matches!(self.stage, Stage::Resting)
    }

    fn has_hand(&self, class: u16) -> bool
        requires { class < CLASSES }
        ensures { IsTrue result ↔ ((hand : Hand) × HasHand self.now.hands class hand) }
    {
        self.hands[usize::from(class)].is_some()
    }

    // The class of the page that goes home next.
    fn next_home(&self) -> Option<u16>
        ensures { MatchOption result (IsNoHand self.now.hands) (λ k. (hand : Hand) × IsFirstHome self.now.hands k hand) }
    {
        let _ = &self.hands;
        if self.has_hand(SINGLE_CLASS) {
            return Some(SINGLE_CLASS);
        }
        for class in 0..CLASSES as u16 {
            if self.has_hand(class) {
                return Some(class);
            }
        }
        None
    }

    fn sends_home<T: Steps<Page>>(&mut self, steps: &mut T, class: u16) -> HomeTurn
        requires agrees { Agrees self.old (T.stand steps.old) (T.here steps.old) }
        requires stage { self.old.stage ≡ Resting }
        requires first { (hand : Hand) × IsFirstHome self.old.hands class hand }
        ensures went { SendsHome T.stand T.here T.did T.moved self.old steps.old steps.new self.new }
        ensures agrees { Agrees self.new (T.stand steps.new) (T.here steps.new) }
        ensures moved { result ≡ HomeTurn.Moved }
    {
        let hand = self.hand_out(class);
        let word = hand.home_word();
        let Hand { frame, page, .. } = hand;
        steps.move_page(FrameNo(frame), Some(page));
        self.goes_to(Stage::PutsHome(frame, word));
        HomeTurn::Moved
    }

    fn gives_home<T: Steps<Page>>(&mut self, steps: &mut T, frame: u16, word: u64) -> HomeTurn
        requires agrees { Agrees self.old (T.stand steps.old) (T.here steps.old) }
        requires stage { self.old.stage ≡ PutsHome frame word }
        requires no_call { IsNoCall (T.stand steps.old).view.position }
        ensures went { IsGivenBack T.stand T.here T.did T.moved frame word self.old steps.old steps.new self.new }
        ensures agrees { Agrees self.new (T.stand steps.new) (T.here steps.new) }
        ensures moved { result ≡ HomeTurn.Moved }
    {
        steps.store(Place::Frame(frame), word, Kind::K11);
        self.goes_to(Stage::Resting);
        HomeTurn::Moved
    }
}
