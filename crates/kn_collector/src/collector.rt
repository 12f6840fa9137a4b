//! The collector, and the turns of its stages where no epoch is under way.
ghost use Rattle.std.specs.Prelude.{◌≡◌, ℕ, ◌<◌, ◌↔◌, Bool, IfOk, IsTrue};
ghost use Rattle.kn_rule.specs.Decoding.{phase_of};
ghost use Rattle.kn_rule.specs.Rule.{fresh};
ghost use Rattle.kn_rule.specs.Steps.{more};
ghost use Rattle.kn_script.specs.Good.{IsGoodScript};
ghost use Rattle.kn_script.specs.Scripts.{ground_of};
ghost use Rattle.kn_steps.specs.Made.{Stand};
ghost use Rattle.kn_steps.specs.Turns.{OneTurn};
ghost use Rattle.kn_steps.specs.declared.turns.Turn.TheVariants.{Done};
ghost use Rattle.kn_collector.specs.declared.stage.Stage.TheVariants.{Looks, Wants, Ends};
ghost use Rattle.kn_collector.specs.Kept.{new_kept};
ghost use Rattle.kn_collector.specs.Stages;
ghost use Rattle.kn_collector.specs.Stages.{said_at};
ghost use Rattle.kn_collector.specs.Agree.{Agrees, HasEnded};
ghost use Rattle.kn_collector.specs.Turns.{Goes, IdleAt, Turned};

use crate::stage::Stage;
use kn_base::{Code, Home, MOST_CALLS, Place};
use kn_graph::Entry;
use kn_keep_mark::laws::epochs_are_few;
use kn_layout::{Layout, copy_layouts};
use kn_mark::Marker;
use kn_rule::Kind;
use kn_script::Script;
use kn_steps::{Steps, Turn};
use std::alloc::{AllocError, Global};
use std::marker::Model;

/// The collector of a heap. Contracts see a `Kept` of `specs/Kept.antt`.
#[derive(Drop)]
pub struct Collector {
    /// Its number, which is how many mutators there are.
    pub(crate) by: u8,
    pub(crate) epoch: u32,
    pub(crate) stage: Stage,
    pub(crate) layouts: Vec<Layout>,
    pub(crate) marker: Marker,
    pub(crate) log: Vec<Entry>,
}

impl Model for Collector {
    ghost use Rattle.std.specs.Prelude.{◌≤◌, vec_capacity};
    ghost use Rattle.kn_base.specs.declared.limits.TheConstants.{MOST_CALLS};
    ghost use Rattle.kn_collector.specs.Kept.{Kept};

    ghost Value = { Kept };

    ghost view = { λ c. record {
      by = c.by;
      epoch = c.epoch;
      stage = c.stage;
      layouts = c.layouts.items;
      marker = c.marker;
      log = c.log.items;
    } };

    ghost invariant = { λ c. MOST_CALLS ≤ vec_capacity c.log };
}

impl Collector {
    /// The collector of a script's heap, which has made no turn. All memory is taken here; an error is want
    /// of it.
    pub fn open(alloc: Global, script: &Script) -> Result<Collector, AllocError>
        requires good { IsGoodScript script.now }
        ensures new { IfOk result (λ c. c ≡ new_kept (ground_of script.now)) }
        ensures agrees { IfOk result (λ c. Agrees c
            (record { heap = ground_of script.now; by = script.now.sizes.threads; view = fresh (ground_of script.now) })) }
    {
        Ok(Collector {
            by: script.sizes.threads as u8,
            epoch: 0,
            stage: Stage::Looks(0),
            layouts: copy_layouts(alloc, &script.layouts)?,
            marker: Marker::open(&script.sizes),
            log: Vec::with_capacity(alloc, MOST_CALLS as usize)?,
        })
    }

    /// Makes the next step (`Turned` in `specs/Turns.antt`). It must not have ended. `Idle` where the
    /// word that was loaded says that no epoch is wanted, and not all mutators were seen ended, or that
    /// a mutator is in; in Mark where its marker found nothing to mark at a place; and behind the pause, with
    /// the state of mutator 0. `Done` in the turn that stores that it has ended. The entry of the pause is
    /// made, and logged, in the turn that stores Weak, and no other entry is.
    #[inline(always)]
    pub fn turn<P: Home, T: Steps<P>>(&mut self, steps: &mut T) -> Turn
        requires agrees { Agrees self.old (T.stand steps.old) }
        requires going { ¬ HasEnded self.old.stage }
        ensures turned { Turned T.stand T.here T.did self.old steps.old steps.new self.new result }
        ensures agrees { Agrees self.new (T.stand steps.new) }
        ensures one { OneTurn T.stand T.here T.did T.moved steps.old steps.new }
        ensures done { (result ≡ Done) ↔ HasEnded self.new.stage }
        ensures idle { IdleAt T.stand T.here T.did T.moved self.old.stage self.old steps.old steps.new result }
        ensures log { (T.stand steps.new).view.log ≡ more (T.stand steps.old).view.log (said_at self.old self.old.stage) }
    {
        self.goes_on(steps)
    }

    fn goes_on<P: Home, T: Steps<P>>(&mut self, steps: &mut T) -> Turn
        requires agrees { Agrees self.old (T.stand steps.old) }
        requires going { ¬ HasEnded self.old.stage }
        ensures { Goes T.stand T.here T.did T.moved self.old steps.old steps.new self.new result }
    {
        match self.stage {
            Stage::Looks(mutator) => self.looks(steps, mutator),
            Stage::Wants(all_ended) => self.wants(steps, all_ended),
            Stage::Ends => self.ends(steps),
            Stage::Ended => unreachable!(),
            Stage::Stops => self.stops(steps),
            Stage::Counts(mutator) => self.counts(steps, mutator),
            Stage::Begins => self.begins(steps),
            Stage::Marks => self.marks(steps),
            Stage::Marking => self.goes_on_marking(steps),
            Stage::Pauses => self.pauses(steps),
            Stage::Paused => self.rests(steps),
        }
    }

    /// The code of the phase that it stored last.
    #[inline(always)]
    pub fn code(&self) -> Code
        ensures is { result ≡ Stages.code_at self.now.stage }
        ensures stored { (a : Stand) → Agrees self.now a → (phase_of a.view.collecting.stored).code ≡ result }
    {
        code_at(self.stage)
    }

    /// Whether it has ended.
    pub fn has_ended(&self) -> bool
        ensures { IsTrue result ↔ HasEnded self.now.stage }
    {
        matches!(self.stage, Stage::Ended)
    }

    /// The entries of its pauses, in order.
    pub fn log(&self) -> &[Entry]
        ensures { result.now ≡ self.now.log }
    {
        self.log.as_slice()
    }

    /// The entries that `log` gives.
    pub fn into_log(self) -> Vec<Entry>
        ensures { result.items ≡ self.log }
    {
        self.log
    }

    fn looks<P: Home, T: Steps<P>>(&mut self, steps: &mut T, mutator: u8) -> Turn
        requires agrees { Agrees self.old (T.stand steps.old) }
        requires stage { self.old.stage ≡ Looks mutator }
        ensures { Goes T.stand T.here T.did T.moved self.old steps.old steps.new self.new result }
    {
        let word = steps.load(Place::State(mutator), Kind::K15);
        self.judges(mutator, word);
        Turn::Moved
    }

    // Behind the state of a mutator.
    fn judges(&mut self, mutator: u8, word: u64)
        requires stage { self.old.stage ≡ Looks mutator }
        requires mutator { mutator < self.old.by }
        ensures { self.new ≡ Stages.behind self.old (Looks mutator) word }
    {
        self.stage = if word == 2 {
            looked(self.by, mutator)
        } else {
            Stage::Wants(false)
        };
    }

    fn wants<P: Home, T: Steps<P>>(&mut self, steps: &mut T, all_ended: bool) -> Turn
        requires agrees { Agrees self.old (T.stand steps.old) }
        requires stage { self.old.stage ≡ Wants all_ended }
        ensures { Goes T.stand T.here T.did T.moved self.old steps.old steps.new self.new result }
    {
        epochs_are_few();
        let word = steps.load(Place::Want, Kind::K13);
        self.chooses(all_ended, word)
    }

    // Behind the epoch that is wanted.
    fn chooses(&mut self, all_ended: bool, word: u64) -> Turn
        requires { self.old.stage ≡ Wants all_ended }
        ensures behind { self.new ≡ Stages.behind self.old (Wants all_ended) word }
        ensures answer { result ≡ Stages.answer_behind self.old (Wants all_ended) word }
    {
        if word > u64::from(self.epoch) {
            self.stage = Stage::Stops;
            Turn::Moved
        } else if all_ended {
            self.stage = Stage::Ends;
            Turn::Moved
        } else {
            self.stage = Stage::Looks(0);
            Turn::Idle(Place::Want, word)
        }
    }

    fn ends<P: Home, T: Steps<P>>(&mut self, steps: &mut T) -> Turn
        requires agrees { Agrees self.old (T.stand steps.old) }
        requires stage { self.old.stage ≡ Ends }
        ensures { Goes T.stand T.here T.did T.moved self.old steps.old steps.new self.new result }
    {
        steps.store(Place::State(self.by), 2, Kind::K2);
        self.goes_to(Stage::Ended);
        Turn::Done
    }

    pub(crate) fn goes_to(&mut self, stage: Stage)
        ensures { self.new ≡ record self.old { stage = stage } }
    {
        self.stage = stage;
    }
}

// The code of the phase that a collector at a stage stored last.
#[inline(always)]
fn code_at(stage: Stage) -> Code
    ensures { result ≡ Stages.code_at stage }
{
    match stage {
        Stage::Counts(_) | Stage::Begins | Stage::Marks => Code::StopA,
        Stage::Marking | Stage::Pauses => Code::Mark,
        Stage::Paused => Code::Weak,
        _ => Code::Idle,
    }
}

// The stage behind a mutator that has ended, where n is the number of mutators.
fn looked(n: u8, mutator: u8) -> Stage
    requires { mutator < n }
    ensures { result ≡ Stages.looked n mutator }
{
    if mutator + 1 < n {
        Stage::Looks(mutator + 1)
    } else {
        Stage::Wants(true)
    }
}
