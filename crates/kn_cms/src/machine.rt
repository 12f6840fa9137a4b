//! The core: what threads and the collector do, one step a turn.

ghost use Rattle.std.specs.Prelude.{◌≡◌, ◌↔◌, ℕ, ◌<◌, Option, Some, None, IfOk, IsTrue, option_map, true, length};
ghost use Rattle.std.specs.List.{AllByRecursion};
ghost use Rattle.kn_graph.specs.Graph.{empty_graph};
ghost use Rattle.kn_graph.specs.Epochs.{WasUnreachable};
ghost use Rattle.kn_graph.specs.Logs.{calls_of, log_of};
ghost use Rattle.kn_script.specs.Good.{IsGoodScript};
ghost use Rattle.kn_script.specs.Scripts.{ground_of};
ghost use Rattle.kn_cms_rule.specs.declared.stages.Stage.TheVariants.{Finished, Waiting};
ghost use Rattle.kn_cms_rule.specs.Words.{one_framed};
ghost use Rattle.kn_cms_rule.specs.Calls.{IsCoreHistory, is_core_call};
ghost use Rattle.kn_cms_rule.specs.State.{State, opening};
ghost use Rattle.kn_cms_rule.specs.Turns.{HasEnded, IsFirstInMiddle, MayTurn};
ghost use Rattle.kn_cms.specs.Moves.{TurnMoves};
ghost use Rattle.kn_cms.specs.Stands.{StandsFor};
ghost use Rattle.kn_cms_lists.specs.Kept.{calls_of_threads};

use crate::collector_turns::collector_turn;
use crate::thread_turns::thread_turn;
use kn_cms_lists::Lists;
use kn_cms_rule::{CmsTurn, Colour, Stage};
use kn_graph::Entry;
use kn_lines::Actor;
use kn_script::Script;
use std::alloc::{AllocError, Global};
use std::marker::Model;

/// A core over a script. Contracts see the record `Kept` in `specs/Kept.antt` of `kn_cms_lists`; the
/// states that it stands for (`StandsFor` in `specs/Stands.antt`) meet the rule of the core.
#[derive(Drop)]
pub struct Core {
    lists: Lists,
}

impl Model for Core {
    ghost use Rattle.kn_cms.specs.Stands.{IsCore};
    ghost use Rattle.kn_cms_lists.specs.Kept.{Kept};

    ghost Value = { Kept };

    ghost view = { λ core. core.lists };

    ghost invariant = { λ core. IsCore core.lists };
}

impl Core {
    /// A core over a script whose calls are those of the core. All room that the turns need is taken
    /// here. An error is want of memory.
    pub fn open(alloc: Global, script: &Script) -> Result<Core, AllocError>
        requires good { IsGoodScript script.now }
        requires calls { AllByRecursion (AllByRecursion (λ call. is_core_call call ≡ true)) script.now.threads }
        ensures ground { IfOk result (λ core. core.ground ≡ ground_of script.now) }
        ensures calls { IfOk result (λ core. core.calls ≡ script.now.threads) }
        ensures opened { IfOk result (λ core. StandsFor core (opening (calls_of_threads script.now.threads))) }
    {
        let lists = Lists::open(alloc, script)?;
        Ok(Core { lists })
    }

    /// The turn of a thread or of the collector: what it makes of each state that the core stands for
    /// is a turn of `TurnOf` in `specs/Turns.antt` of `kn_cms_rule`. `Idle` names the first thread in the
    /// middle of a call, for which the snapshot waits; `Done` comes where the actor has ended behind the
    /// turn. An actor that has ended takes further turns in vain.
    pub fn turn(&mut self, who: Actor) -> CmsTurn
        requires { MayTurn self.old.ground who }
        ensures moves { TurnMoves self.old who result self.new }
        ensures idle { (s : State) (i : ℕ) → StandsFor self.old s → (result ≡ CmsTurn.Idle i)
            ↔ ((who ≡ Actor.Collector) × (s.stage ≡ Waiting) × IsFirstInMiddle (one_framed self.old.ground) s i) }
        ensures done { (s : State) → StandsFor self.new s → (result ≡ CmsTurn.Done) ↔ HasEnded s who }
    {
        match who {
            Actor::Thread(thread) => thread_turn(&mut self.lists, thread),
            Actor::Collector => collector_turn(&mut self.lists),
            _ => unreachable!(),
        }
    }

    /// Whether an actor may take turns: a thread of the script, or the collector.
    pub fn has_actor(&self, who: Actor) -> bool
        ensures { IsTrue result ↔ MayTurn self.now.ground who }
    {
        match who {
            Actor::Thread(thread) => u32::from(thread) < self.lists.ground.threads(),
            Actor::Collector => true,
            _ => false,
        }
    }

    /// The number of threads.
    pub fn threads(&self) -> u8
        ensures { result ≡ self.now.ground.sizes.threads }
    {
        self.lists.ground.threads() as u8
    }

    /// The number of objects.
    pub fn objects(&self) -> u32
        ensures { result ≡ length self.now.cells.cells }
    {
        self.lists.cells.born() as u32
    }

    /// How many calls a thread has answered.
    pub fn answered(&self, thread: u8) -> u32
        requires { thread < self.now.ground.sizes.threads }
        ensures { (s : State) → StandsFor self.now s → result ≡ length (calls_of (log_of thread s.history)) }
    {
        self.lists.answered(thread)
    }

    /// The entries so far, with all words of the heap as one frame.
    pub fn history(&self) -> &[Entry]
        ensures is { (s : State) → StandsFor self.now s → result.now ≡ s.history }
        ensures legal { IsCoreHistory (one_framed self.now.ground) result.now }
    {
        self.lists.history.as_slice()
    }

    /// The number of objects at the snapshot, and `None` exactly before it.
    pub fn snapshot(&self) -> Option<u32>
        ensures { (s : State) → StandsFor self.now s → result ≡ option_map (λ g. g.born) s.snapshot }
    {
        self.lists.snapshot
    }

    /// Whether the collector has marked all.
    pub fn finished(&self) -> bool
        ensures { (s : State) → StandsFor self.now s → IsTrue result ↔ (s.stage ≡ Finished) }
    {
        match self.lists.stage {
            Stage::Finished => true,
            _ => false,
        }
    }

    /// Whether an object is condemned: false before the end of marking, and after it exactly where the
    /// pause of the history found it unreachable.
    pub fn condemned(&self, k: u32) -> bool
        requires { k < length self.now.cells.cells }
        ensures { (s : State) → StandsFor self.now s →
            IsTrue result ↔ ((s.stage ≡ Finished) × WasUnreachable (one_framed self.now.ground) empty_graph s.history k) }
    {
        match self.lists.colours.of(k) {
            Colour::White => self.finished(),
            _ => false,
        }
    }
}
