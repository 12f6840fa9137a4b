//! The safepoint, and the turn of each stage.
ghost use Rattle.std.specs.Prelude.{◌≡◌, ◌<◌, ◌↔◌, IsTrue, None, cond};
ghost use Rattle.kn_graph.specs.Ground.{Ground};
ghost use Rattle.kn_rule.specs.Decoding.{PacksPhase, phase_of};
ghost use Rattle.kn_rule.specs.Phases.{is_run};
ghost use Rattle.kn_rule.specs.Rule.{fresh};
ghost use Rattle.kn_steps.specs.Turns.{OneTurn};
ghost use Rattle.kn_safepoint.specs.declared.stage.Stage.TheVariants.{Out, GoesIn, Enters, GoesBack, In};
ghost use Rattle.kn_safepoint.specs.Kept.{new_kept};
ghost use Rattle.kn_safepoint.specs.Stages.{answer_behind, entered, looked, stage_behind};
ghost use Rattle.kn_safepoint.specs.Agree.{Agrees, IsEntering, MayLeave, MayTurn, OwnsNone};
ghost use Rattle.kn_safepoint.specs.Turns.{Goes, Left, Turned};

use crate::stage::{Enter, Stage};
use kn_base::{Caller, Code, Home, PhaseWord, Place};
use kn_graph::Call;
use kn_rule::Kind;
use kn_steps::Steps;
use std::marker::Model;

/// The way of one mutator in and out. Contracts see a `Kept` of `specs/Kept.antt`.
#[derive(Drop)]
pub struct Safepoint {
    by: u8,
    stage: Stage,
}

impl Model for Safepoint {
    ghost use Rattle.kn_safepoint.specs.Kept.{Kept};

    ghost Value = { Kept };

    ghost view = { λ s. record { by = s.by; stage = s.stage } };
}

impl Safepoint {
    /// The safepoint of a caller that has made no turn, and is out.
    pub fn open(by: Caller) -> Safepoint
        ensures new { result ≡ new_kept by.0 }
        ensures agrees { (z : Ground) → by.0 < z.sizes.threads → Agrees result (record { heap = z; by = by.0; view = fresh z }) }
    {
        Safepoint::at(by, Stage::Out)
    }

    /// The safepoint of a caller at a stage.
    #[inline(always)]
    pub fn at(by: Caller, stage: Stage) -> Safepoint
        ensures { result ≡ record { by = by.0; stage = stage } }
    {
        Safepoint { by: by.0, stage }
    }

    /// What it does next.
    #[inline(always)]
    pub fn stage(&self) -> Stage
        ensures { result ≡ self.now.stage }
    {
        self.stage
    }

    /// Whether its next turn is the load of a caller that enters.
    pub fn is_entering(&self) -> bool
        ensures { IsTrue result ↔ IsEntering self.now.stage }
    {
        matches!(self.stage, Stage::Enters)
    }

    /// Makes the next step on the way in (`Turned` in `specs/Turns.antt`): a load of the phase, which may
    /// be a poll for the next call where the caller enters and wants no epoch, or a store of its state. It
    /// must not be in. `Idle` where it is out and loaded StopA, StopB or Prep; `Help` where it is out and
    /// loaded Mark; `In` where it enters and loaded a run phase.
    #[inline(always)]
    pub fn enter_turn<P: Home, T: Steps<P>>(&mut self, steps: &mut T, next: Option<Call>) -> Enter
        requires agrees { Agrees self.old (T.stand steps.old) }
        requires may { MayTurn self.old.stage (T.stand steps.old) (T.here steps.old) next }
        ensures turned { Turned T.stand T.here T.did self.old next steps.old steps.new self.new result }
        ensures agrees { Agrees self.new (T.stand steps.new) }
        ensures one { OneTurn T.stand T.here T.did T.moved steps.old steps.new }
    {
        self.goes_on(steps, next)
    }

    fn goes_on<P: Home, T: Steps<P>>(&mut self, steps: &mut T, next: Option<Call>) -> Enter
        requires agrees { Agrees self.old (T.stand steps.old) }
        requires may { MayTurn self.old.stage (T.stand steps.old) (T.here steps.old) next }
        ensures { Goes T.stand T.here T.did self.old next steps.old steps.new self.new result }
    {
        match self.stage {
            Stage::Out => self.looks(steps),
            Stage::GoesIn => self.goes_in(steps),
            Stage::Enters => self.enters(steps, next),
            Stage::GoesBack => self.goes_back(steps),
            Stage::In => unreachable!(),
        }
    }

    /// Stores that it is out (`Left` in `specs/Turns.antt`). It is to be leaving, or entering, and to own
    /// no frame.
    #[inline(always)]
    pub fn leave_turn<P: Home, T: Steps<P>>(&mut self, steps: &mut T)
        requires caller { (T.stand steps.old).by ≡ self.old.by }
        requires thread { self.old.by < (T.stand steps.old).heap.sizes.threads }
        requires may { MayLeave (T.stand steps.old).view }
        ensures left { Left T.stand T.here T.did self.old steps.old steps.new self.new }
        ensures agrees { Agrees self.new (T.stand steps.new) }
        ensures one { OneTurn T.stand T.here T.did T.moved steps.old steps.new }
    {
        steps.store(Place::State(self.by), 0, Kind::K2);
        self.stage = Stage::Out;
    }

    // Out: the phase says whether it goes in.
    fn looks<P: Home, T: Steps<P>>(&mut self, steps: &mut T) -> Enter
        requires agrees { Agrees self.old (T.stand steps.old) }
        requires stage { self.old.stage ≡ Out }
        ensures { Goes T.stand T.here T.did self.old None steps.old steps.new self.new result }
    {
        let word = steps.poll(None);
        self.looked(word)
    }

    // Behind a phase that one that is out loaded.
    fn looked(&mut self, word: u64) -> Enter
        requires { PacksPhase word }
        ensures behind { self.new ≡ record self.old { stage = stage_behind Out word } }
        ensures answer { result ≡ answer_behind Out word }
    {
        let phase = phase_told(word);
        self.stage = stage_out(lets_in(phase.code));
        told_out(word, phase.epoch, phase.code)
    }

    fn goes_in<P: Home, T: Steps<P>>(&mut self, steps: &mut T) -> Enter
        requires agrees { Agrees self.old (T.stand steps.old) }
        requires stage { self.old.stage ≡ GoesIn }
        ensures { Goes T.stand T.here T.did self.old None steps.old steps.new self.new result }
    {
        steps.store(Place::State(self.by), 1, Kind::K2);
        self.goes_to(Stage::Enters);
        Enter::Moved
    }

    // Entering: the phase says whether it is in.
    fn enters<P: Home, T: Steps<P>>(&mut self, steps: &mut T, next: Option<Call>) -> Enter
        requires agrees { Agrees self.old (T.stand steps.old) }
        requires stage { self.old.stage ≡ Enters }
        requires may { MayTurn Enters (T.stand steps.old) (T.here steps.old) next }
        ensures { Goes T.stand T.here T.did self.old next steps.old steps.new self.new result }
    {
        let word = steps.poll(next);
        self.heard(word)
    }

    // Behind a phase that one that enters loaded.
    fn heard(&mut self, word: u64) -> Enter
        requires { PacksPhase word }
        ensures behind { self.new ≡ record self.old { stage = stage_behind Enters word } }
        ensures answer { result ≡ answer_behind Enters word }
    {
        let phase = phase_told(word);
        let run = lets_in(phase.code);
        self.stage = stage_entered(run);
        told_in(phase, run)
    }

    fn goes_back<P: Home, T: Steps<P>>(&mut self, steps: &mut T) -> Enter
        requires agrees { Agrees self.old (T.stand steps.old) }
        requires stage { self.old.stage ≡ GoesBack }
        requires none { OwnsNone (T.stand steps.old).view }
        ensures { Goes T.stand T.here T.did self.old None steps.old steps.new self.new result }
    {
        steps.store(Place::State(self.by), 0, Kind::K2);
        self.goes_to(Stage::Out);
        Enter::Moved
    }

    fn goes_to(&mut self, stage: Stage)
        ensures { self.new ≡ record self.old { stage = stage } }
    {
        self.stage = stage;
    }
}

// The phase of a word that packs one.
fn phase_told(word: u64) -> PhaseWord
    requires { PacksPhase word }
    ensures { result ≡ phase_of word }
{
    match PhaseWord::unpack(word) {
        Some(phase) => phase,
        None => unreachable!(),
    }
}

// Whether a phase lets callers go in and begin calls.
fn lets_in(code: Code) -> bool
    ensures { result ≡ is_run code }
{
    match code {
        Code::Idle | Code::Weak | Code::Sweep => true,
        Code::StopA | Code::Mark | Code::StopB | Code::Prep => false,
    }
}

// Behind a load by one that is out.
fn stage_out(run: bool) -> Stage
    ensures { result ≡ cond run GoesIn Out }
{
    if run { Stage::GoesIn } else { Stage::Out }
}

// Behind a load by one that enters.
fn stage_entered(run: bool) -> Stage
    ensures { result ≡ cond run In GoesBack }
{
    if run { Stage::In } else { Stage::GoesBack }
}

// What one that is out is told of a phase.
fn told_out(word: u64, epoch: u32, code: Code) -> Enter
    ensures { result ≡ looked word epoch code }
{
    match code {
        Code::StopA | Code::StopB | Code::Prep => Enter::Idle(Place::Phase, word),
        Code::Mark => Enter::Help(epoch),
        Code::Idle | Code::Weak | Code::Sweep => Enter::Moved,
    }
}

// What one that enters is told of a phase.
fn told_in(phase: PhaseWord, run: bool) -> Enter
    ensures { result ≡ entered phase run }
{
    if run { Enter::In(phase) } else { Enter::Moved }
}
