//! The core of a run, its actors, and the order of their turns.

ghost use Rattle.std.specs.Prelude.{◌≡◌, ◌+◌, ◌<◌, ◌≤◌, IfOk, MatchBool, true};
ghost use Rattle.std.specs.List.{AllByRecursion};
ghost use Rattle.kn_graph.specs.Ground.{Ground};
ghost use Rattle.kn_script.specs.Good.{IsGoodScript};
ghost use Rattle.kn_cms_rule.specs.Calls.{is_core_call};
ghost use Rattle.kn_cms_rule.specs.State.{State};
ghost use Rattle.kn_cms_rule.specs.Turns.{MayTurn};
ghost use Rattle.kn_cms.specs.Stands.{StandsFor};
ghost use Rattle.kn_cms_trace.specs.CoreRuns.{CoreGoesOn, CoreHasEnded, CoreRun, actor_at, answered_by, core_start, is_done};
ghost use Rattle.kn_cms_trace.specs.Runners.{IsOfScript, IsRunnerOf, KeepsScript, TakesTurn, TakesTurns};

use kn_base::Code;
use kn_cms::{CmsTurn, Core};
use kn_lines::Actor;
use kn_schedule::Schedule;
use kn_script::{Script, state_laws};
use std::alloc::{AllocError, Global};
use std::marker::Model;

/// A core, of each actor whether it has ended and how many calls it has answered, and the order of
/// turns. Actors are numbered: the threads by their number, and the collector behind them. Contracts
/// see a `Runner` of `specs/Runners.antt`.
#[derive(Drop)]
pub struct CoreRunner {
    core: Core,
    threads: u8,
    ended: Vec<bool>,
    answered: Vec<u32>,
    schedule: Schedule,
}

impl Model for CoreRunner {
    ghost use Rattle.std.specs.Prelude.{◌≡◌, ◌+◌, length};
    ghost use Rattle.kn_cms_trace.specs.Runners.{Runner};

    ghost Value = { Runner };

    ghost view = { λ r. record { core = r.core; ended = r.ended.items; answered = r.answered.items; left = r.schedule.left } };

    ghost invariant = { λ r. (r.core.ground.sizes.threads ≡ r.threads) × (r.schedule.threads ≡ r.threads)
        × (length r.ended.items ≡ r.threads + 1) × (length r.answered.items ≡ r.threads + 1) };
}

/// The actor of a number.
fn actor_at(threads: u8, actor: u8) -> Actor
    ensures is { result ≡ actor_at threads actor }
    ensures may { (z : Ground) → z.sizes.threads ≡ threads → MayTurn z result }
{
    if actor < threads {
        Actor::Thread(actor)
    } else {
        Actor::Collector
    }
}

/// Whether a turn ended its actor.
fn is_done(turn: CmsTurn) -> bool
    ensures { result ≡ is_done turn }
{
    matches!(turn, CmsTurn::Done)
}

/// How many calls an actor has answered.
fn answered_by(core: &Core, who: Actor) -> u32
    requires { MayTurn core.now.ground who }
    ensures { (s : State) → StandsFor core.now s → result ≡ answered_by s who }
{
    match who {
        Actor::Thread(thread) => core.answered(thread),
        _ => 0,
    }
}

impl CoreRunner {
    /// A core over a script and its actors, before the first turn. An error is want of memory.
    pub fn open(alloc: Global, script: &Script) -> Result<CoreRunner, AllocError>
        requires good { IsGoodScript script.now }
        requires calls { AllByRecursion (AllByRecursion (λ call. is_core_call call ≡ true)) script.now.threads }
        ensures of_script { IfOk result (λ runner. IsOfScript script.now runner.core) }
        ensures start { IfOk result (λ runner. IsRunnerOf runner (core_start script.now)) }
    {
        state_laws();
        let threads = script.sizes.threads as u8;
        let actors = usize::from(threads) + 1;
        let core = Core::open(alloc, script)?;
        let mut ended = Vec::new(alloc);
        ended.resize(actors, false)?;
        let mut answered = Vec::new(alloc);
        answered.resize(actors, 0)?;
        let words = Vec::from_slice(alloc, &script.order)?;
        Ok(CoreRunner {
            core,
            threads,
            ended,
            answered,
            schedule: Schedule::open(words, threads),
        })
    }

    /// One turn of the actor whose turn it is; `true` where each actor has ended.
    fn take_turn(&mut self) -> bool
        ensures keeps { KeepsScript self.old.core self.new.core }
        ensures takes { TakesTurn result self.old self.new }
    {
        let Some(actor) = self
            .schedule
            .next_turn(&self.ended, &self.answered, Code::Idle)
        else {
            return true;
        };
        let who = actor_at(self.threads, actor);
        let turn = self.core.turn(who);
        self.ended[usize::from(actor)] = is_done(turn);
        self.answered[usize::from(actor)] = answered_by(&self.core, who);
        false
    }

    /// Turns up to a limit, or until each actor has ended.
    pub fn take_turns(&mut self, limit: u64)
        ensures keeps { KeepsScript self.old.core self.new.core }
        ensures takes { (r : CoreRun) → IsRunnerOf self.old r → TakesTurns limit self.old self.new r }
    {
        for _turn in 0..limit {
            if self.take_turn() {
                return;
            }
        }
    }

    /// Whether some actor has not ended.
    pub fn is_going_on(&self) -> bool
        ensures { MatchBool result
            (CoreGoesOn self.now.core.ground.sizes.threads self.now.ended)
            (CoreHasEnded self.now.core.ground.sizes.threads self.now.ended) }
    {
        for ended in &self.ended {
            if !*ended {
                return true;
            }
        }
        false
    }

    /// The core.
    pub fn into_core(self) -> Core
        ensures { result ≡ self.core }
    {
        self.core
    }
}
