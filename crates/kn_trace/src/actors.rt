//! The actors of a run, and their turns.
ghost use Rattle.std.specs.Prelude.{◌≡◌, ◌<◌, false, IfOk, MatchBool, length, slice_index_or};
ghost use Rattle.kn_rule.specs.Rule.{fresh};
ghost use Rattle.kn_rule.specs.Steps.{callers};
ghost use Rattle.kn_schedule.specs.Schedules.{whole_order};
ghost use Rattle.kn_script.specs.Good.{IsGoodScript};
ghost use Rattle.kn_script.specs.Scripts.{ground_of};
ghost use Rattle.kn_collector.specs.Agree.{Agrees as Collects, HasEnded as HasCollected};
ghost use Rattle.kn_collector.specs.Kept.{new_kept};
ghost use Rattle.kn_mutator.specs.Agree.{HasEnded};
ghost use Rattle.kn_trace.specs.Traces.{IsCollectorTurn, IsThreadTurn, ends, is_end, is_over};
ghost use Rattle.kn_trace.specs.Runs.{AreBuilt, HaveEnded, IsGoingOn};
ghost use Rattle.kn_trace.specs.Between.{AgreesAt, AreNew, CollectsAt, Holds, MakesCollection, MakesTurn, Stays, Takes, TakesAll};
ghost use Rattle.kn_trace.specs.Between.{logs_of, trace_of};

use kn_alloc::laws::agreement_laws;
use kn_base::Caller;
use kn_board::Board;
use kn_collector::Collector;
use kn_mutator::{Mutator, OpenGate};
use kn_others::laws::turn_laws;
use kn_page::Page;
use kn_report::Log;
use kn_schedule::Schedule;
use kn_script::{Script, state_laws};
use kn_steps::Turn;
use std::alloc::{AllocError, Global};
use std::marker::Model;

/// The mutators of all threads and the collector, of each of them, in this order, whether it has ended
/// and how many calls it has answered, and the order of their turns. Contracts see a `Running` of
/// `specs/Between.antt`.
#[derive(Drop)]
pub struct Actors {
    mutators: Vec<Mutator>,
    collector: Collector,
    ended: Vec<bool>,
    answered: Vec<u32>,
    schedule: Schedule,
}

impl Model for Actors {
    ghost use Rattle.std.specs.Prelude.{◌≡◌, ◌++◌, ◌∷◌, [], length, map};
    ghost use Rattle.kn_trace.specs.Traces.{ends};
    ghost use Rattle.kn_trace.specs.Between.{Running};

    ghost Value = { Running };

    ghost view = { λ a. record { mutators = a.mutators.items; collector = a.collector; left = a.schedule.left } };

    ghost invariant = { λ a. (a.schedule.threads ≡ length a.mutators.items)
        × (a.ended.items ≡ ends a.mutators.items a.collector)
        × (a.answered.items ≡ map (λ m. length m.log) a.mutators.items ++ 0 ∷ []) };
}

/// The board behind a turn, and whether the actor has ended in it.
#[derive(Drop)]
struct Made {
    board: Board<Page>,
    has_ended: bool,
}

/// The board behind a turn, or as it was where all actors have ended.
#[derive(Drop)]
pub struct Taken {
    pub board: Board<Page>,
    pub is_over: bool,
}

/// One turn of a thread's mutator on the board.
#[inline(always)]
fn turn_on(board: Board<Page>, mutator: &mut Mutator, thread: u8) -> Made
    requires caller { thread < callers board.heap.sizes }
    requires agrees { AgreesAt board thread mutator.old }
    requires going { ¬ HasEnded mutator.old.task }
    ensures made { MakesTurn board thread mutator.old result.board mutator.new }
    ensures ended { result.has_ended ≡ is_end mutator.new.task }
{
    board.rule_holds();
    let mut seat = board.at(Caller(thread));
    let reply = mutator.turn(&mut seat, &OpenGate);
    let has_ended = matches!(reply, Turn::Done);
    Made {
        board: seat.into_board(),
        has_ended,
    }
}

/// One turn of the collector on the board, as this caller.
#[inline(always)]
fn collect_on(board: Board<Page>, collector: &mut Collector, by: u8) -> Made
    requires caller { by ≡ board.heap.sizes.threads }
    requires agrees { CollectsAt board collector.old }
    requires going { ¬ HasCollected collector.old.stage }
    ensures made { MakesCollection board by collector.old result.board collector.new }
    ensures ended { result.has_ended ≡ is_over collector.new.stage }
{
    board.rule_holds();
    let mut seat = board.at(Caller(by));
    let reply = collector.turn(&mut seat);
    let has_ended = matches!(reply, Turn::Done);
    Made {
        board: seat.into_board(),
        has_ended,
    }
}

/// A mutator for each thread.
fn open_mutators(alloc: Global, script: &Script) -> Result<Vec<Mutator>, AllocError>
    requires good { IsGoodScript script.now }
    requires built { AreBuilt script.now.threads }
    ensures new { IfOk result (λ mutators. AreNew script.now (length script.now.threads) mutators.items) }
{
    let mut mutators = Vec::new(alloc);
    let count = script.sizes.threads as u8;
    for thread in 0..count {
        mutators.push(Mutator::open(alloc, script, thread)?)?;
    }
    Ok(mutators)
}

/// The log of a mutator.
fn log_of(mutator: Mutator) -> Log
    ensures { result ≡ mutator.log }
{
    Log::from_vec(mutator.into_log())
}

impl Actors {
    /// The actors of a script, before the first turn. An error is want of memory.
    pub fn open(alloc: Global, script: &Script) -> Result<Actors, AllocError>
        requires good { IsGoodScript script.now }
        requires built { AreBuilt script.now.threads }
        ensures new { IfOk result (λ actors. AreNew script.now (length script.now.threads) actors.mutators) }
        ensures collector { IfOk result (λ actors. actors.collector ≡ new_kept (ground_of script.now)) }
        ensures collects { IfOk result (λ actors. Collects actors.collector
            (record { heap = ground_of script.now; by = script.now.sizes.threads; view = fresh (ground_of script.now) })) }
        ensures left { IfOk result (λ actors. actors.left ≡ whole_order script.now.order) }
    {
        state_laws();
        let threads = script.sizes.threads as u8;
        let actors = usize::from(threads) + 1;
        let words = Vec::from_slice(alloc, &script.order)?;
        let mutators = open_mutators(alloc, script)?;
        let collector = Collector::open(alloc, script)?;
        let mut ended = Vec::new(alloc);
        ended.resize(actors, false)?;
        let mut answered = Vec::new(alloc);
        answered.resize(actors, 0)?;
        Ok(Actors {
            mutators,
            collector,
            ended,
            answered,
            schedule: Schedule::open(words, threads),
        })
    }

    /// A turn of a thread that has not ended.
    #[inline(always)]
    fn thread_turn(&mut self, board: Board<Page>, thread: u8) -> Board<Page>
        requires holds { Holds (trace_of board self.old) }
        requires thread { thread < length self.old.mutators }
        requires going { slice_index_or (ends self.old.mutators self.old.collector) thread false ≡ false }
        ensures holds { Holds (trace_of result self.new) }
        ensures stays { Stays (trace_of board self.old) (trace_of result self.new) }
        ensures left { self.new.left ≡ self.old.left }
        ensures turn { IsThreadTurn thread (trace_of board self.old) (trace_of result self.new) }
    {
        turn_laws();
        agreement_laws();
        let mutator = &mut self.mutators[usize::from(thread)];
        let made = turn_on(board, mutator, thread);
        self.ended[usize::from(thread)] = made.has_ended;
        self.answered[usize::from(thread)] = mutator.log().len() as u32;
        made.board
    }

    /// A turn of the collector, which has not ended, as this caller.
    #[inline(always)]
    fn collector_turn(&mut self, board: Board<Page>, by: u8) -> Board<Page>
        requires holds { Holds (trace_of board self.old) }
        requires by { by ≡ length self.old.mutators }
        requires going { slice_index_or (ends self.old.mutators self.old.collector) by false ≡ false }
        ensures holds { Holds (trace_of result self.new) }
        ensures stays { Stays (trace_of board self.old) (trace_of result self.new) }
        ensures left { self.new.left ≡ self.old.left }
        ensures turn { IsCollectorTurn by (trace_of board self.old) (trace_of result self.new) }
    {
        turn_laws();
        agreement_laws();
        let made = collect_on(board, &mut self.collector, by);
        self.ended[usize::from(by)] = made.has_ended;
        made.board
    }

    /// One turn of the actor whose turn it is.
    #[inline(always)]
    fn take_turn(&mut self, board: Board<Page>) -> Taken
        requires holds { Holds (trace_of board self.old) }
        ensures holds { Holds (trace_of result.board self.new) }
        ensures stays { Stays (trace_of board self.old) (trace_of result.board self.new) }
        ensures takes { Takes result.is_over (trace_of board self.old) (trace_of result.board self.new) }
    {
        board.rule_holds();
        let code = self.collector.code();
        let Some(actor) = self.schedule.next_turn(&self.ended, &self.answered, code) else {
            return Taken {
                board,
                is_over: true,
            };
        };
        if usize::from(actor) < self.mutators.len() {
            Taken {
                board: self.thread_turn(board, actor),
                is_over: false,
            }
        } else {
            Taken {
                board: self.collector_turn(board, actor),
                is_over: false,
            }
        }
    }

    /// Turns up to a limit, or until all actors have ended.
    pub fn take_turns(&mut self, board: Board<Page>, limit: u64) -> Board<Page>
        requires holds { Holds (trace_of board self.old) }
        ensures holds { Holds (trace_of result self.new) }
        ensures stays { Stays (trace_of board self.old) (trace_of result self.new) }
        ensures takes { TakesAll limit (trace_of board self.old) (trace_of result self.new) }
    {
        let mut board = board;
        for _turn in 0..limit {
            let taken = self.take_turn(board);
            board = taken.board;
            if taken.is_over {
                return board;
            }
        }
        board
    }

    /// Whether some actor has not ended.
    pub fn is_going_on(&self) -> bool
        ensures { MatchBool result
            (IsGoingOn self.now.mutators self.now.collector) (HaveEnded self.now.mutators self.now.collector) }
    {
        for ended in &self.ended {
            if !*ended {
                return true;
            }
        }
        false
    }

    /// The logs of the threads, that of the collector, and an empty one for the finalizer, which has made no
    /// entry. An error is want of memory.
    pub fn into_logs(self, alloc: Global) -> Result<Vec<Log>, AllocError>
        ensures { IfOk result (λ logs. logs.items ≡ logs_of self.mutators self.collector) }
    {
        let mut logs: Vec<Log> = self
            .mutators
            .into_iter()
            .map(|mutator| log_of(mutator))
            .collect(alloc)?;
        logs.push(Log::from_vec(self.collector.into_log()))?;
        logs.push(Log::new(alloc))?;
        Ok(logs)
    }
}
