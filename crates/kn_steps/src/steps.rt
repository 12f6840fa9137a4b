ghost use Rattle.std.specs.Prelude.{ℕ, option_map};
ghost use Rattle.kn_base.specs.Pages.{FrameView};
ghost use Rattle.kn_base.specs.declared.places.Place.TheVariants.{Phase};
ghost use Rattle.kn_rule.specs.declared.steps.Action.TheVariants.{Loads, LoadsFor, Stores, Swaps, Adds, Subtracts, Raises};
ghost use Rattle.kn_rule.specs.declared.steps.Kind.TheVariants.{K1};
ghost use Rattle.kn_rule.specs.Steps.{Found, does, found};
ghost use Rattle.kn_steps.specs.Made.{Allowed, Made, MayMove, Moved, TellsWord, word_told};

use kn_base::{FrameNo, Home, Place};
use kn_graph::Call;
use kn_rule::Kind;

/// One caller's steps.
///
/// `stand` is whose steps they are, over which heap, and what the caller knows; `here` says of each
/// frame that the caller owns whether its page lies in its slot. `did` and `moved` are what one
/// heap knows of its own state before and after a step and before and after a move of a page: all
/// of it on a board, and on a table that the rest of a seat stays. Whoever calls a machine over one
/// heap reads them; a machine hands them on.
///
/// Each call asks that its step is allowed in the caller's view (`Allowed`), and ends with the view
/// that the rule gives. It also tells all that the rule gives for that view and the word found
/// (`Made` in `specs/Made.antt`). No call is to wait or to take memory; no clause says so.
pub trait Steps<P: Home> {
    ghost use Rattle.std.specs.Prelude.{ℕ, Bool, Option};
    ghost use Rattle.kn_base.specs.Pages.{FrameView};
    ghost use Rattle.kn_rule.specs.Steps.{Step, Found};
    ghost use Rattle.kn_steps.specs.Made.{Stand};

    ghost stand: { Self → Stand };

    ghost here: { Self → ℕ → Bool };

    ghost did: { Self → Step → Found → Self → Type 0 };

    ghost moved: { Self → ℕ → Option FrameView → Option FrameView → Self → Type 0 };

    /// A load of the phase by a mutator. Where `next` is a call and the phase is one in which calls
    /// begin, that call begins in the view; where the view alone answers it, this step does.
    fn poll(&mut self, next: Option<Call>) -> u64
        requires { Allowed (stand self.old) (here self.old) (does K1 Phase (LoadsFor next)) }
        ensures { (page : FrameView)
            × Made (stand self.old) (here self.old) (does K1 Phase (LoadsFor next)) (found result page) (stand self.new) (here self.new)
            × did self.old (does K1 Phase (LoadsFor next)) (found result page) self.new };

    /// The word of a place.
    fn load(&mut self, place: Place, kind: Kind) -> u64
        requires { Allowed (stand self.old) (here self.old) (does kind place Loads) }
        ensures { (page : FrameView)
            × Made (stand self.old) (here self.old) (does kind place Loads) (found result page) (stand self.new) (here self.new)
            × did self.old (does kind place Loads) (found result page) self.new };

    fn store(&mut self, place: Place, word: u64, kind: Kind)
        requires { Allowed (stand self.old) (here self.old) (does kind place (Stores word)) }
        ensures { (f : Found)
            × Made (stand self.old) (here self.old) (does kind place (Stores word)) f (stand self.new) (here self.new)
            × did self.old (does kind place (Stores word)) f self.new };

    /// Stores `new` where the word is `old`. `Ok(old)` exactly where it was, and otherwise `Err` with
    /// the word that was there, and nothing is changed.
    fn swap_if(&mut self, place: Place, old: u64, new: u64, kind: Kind) -> Result<u64, u64>
        requires { Allowed (stand self.old) (here self.old) (does kind place (Swaps old new)) }
        ensures tells { TellsWord old result }
        ensures made { (page : FrameView)
            × Made (stand self.old) (here self.old) (does kind place (Swaps old new)) (found (word_told result) page) (stand self.new) (here self.new)
            × did self.old (does kind place (Swaps old new)) (found (word_told result) page) self.new };

    /// Adds `n`, and gives the word that was there.
    fn add(&mut self, place: Place, n: u64, kind: Kind) -> u64
        requires { Allowed (stand self.old) (here self.old) (does kind place (Adds n)) }
        ensures { (page : FrameView)
            × Made (stand self.old) (here self.old) (does kind place (Adds n)) (found result page) (stand self.new) (here self.new)
            × did self.old (does kind place (Adds n)) (found result page) self.new };

    /// Subtracts `n`, and gives the word that was there.
    fn sub(&mut self, place: Place, n: u64, kind: Kind) -> u64
        requires { Allowed (stand self.old) (here self.old) (does kind place (Subtracts n)) }
        ensures { (page : FrameView)
            × Made (stand self.old) (here self.old) (does kind place (Subtracts n)) (found result page) (stand self.new) (here self.new)
            × did self.old (does kind place (Subtracts n)) (found result page) self.new };

    /// Stores `n` where it is above the word, and gives the word that was there.
    fn raise(&mut self, place: Place, n: u64, kind: Kind) -> u64
        requires { Allowed (stand self.old) (here self.old) (does kind place (Raises n)) }
        ensures { (page : FrameView)
            × Made (stand self.old) (here self.old) (does kind place (Raises n)) (found result page) (stand self.new) (here self.new)
            × did self.old (does kind place (Raises n)) (found result page) self.new };

    /// Takes the page of an owned frame out of its slot (`None`), or puts it back. The view stays.
    fn move_page(&mut self, frame: FrameNo, page: Option<P>) -> Option<P>
        requires { MayMove (stand self.old) (here self.old) frame.0 (option_map P.page page) }
        ensures moved { Moved (stand self.old) (here self.old) frame.0 (option_map P.page page) (option_map P.page result)
            (stand self.new) (here self.new) }
        ensures kept { moved self.old frame.0 (option_map P.page page) (option_map P.page result) self.new };
}
