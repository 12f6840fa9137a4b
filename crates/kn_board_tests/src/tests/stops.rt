//! A stop of one mutator, whose steps are made by hand.
ghost use Rattle.std.specs.Prelude.{◌≡◌, ℕ, IfOk, IfSome, Option, Some, None, slice_index};
ghost use Rattle.kn_base.specs.declared.places.Place.TheVariants.{State};
ghost use Rattle.kn_graph.specs.declared.calls.Call.TheVariants.{Collect};
ghost use Rattle.kn_rule.specs.declared.positions.Position.{Position};
ghost use Rattle.kn_rule.specs.declared.positions.Position.TheVariants.{Out, Entering, Calling, Waiting, Leaving};
ghost use Rattle.kn_rule.specs.declared.steps.Action.TheVariants.{Stores};
ghost use Rattle.kn_rule.specs.declared.steps.Kind.TheVariants.{K2};
ghost use Rattle.kn_rule.specs.Steps.{does};
ghost use Rattle.kn_steps.specs.Made.{Allowed};
ghost use Rattle.kn_board.specs.World.{lies_at, stand_at};
ghost use Rattle.kn_collector.specs.Agree.{Agrees};
ghost use Rattle.kn_collector.specs.Kept.{Kept};
ghost use Rattle.kn_script.specs.Good.{IsGoodScript};
ghost use Rattle.kn_board_tests.specs.Stands.{MutatorAt};

use super::collecting::read;
use kn_base::{Caller, Place};
use kn_board::Board;
use kn_collector::Collector;
use kn_graph::Call;
use kn_others::laws::turn_laws;
use kn_page::{Page, open_pages};
use kn_rule::Kind;
use kn_script::{Script, state_laws};
use kn_steps::{Steps, Turn};
use std::alloc::{AllocError, Global};

const ONE_CALL: &str =
    "heap 1 64 0 32 0 2\nnames 0 0 0 0\nlayout fields ref\nthreads 1\nthread 0\ngc\n";

const NO_CALL: &str = "heap 1 64 0 32 0 2\nnames 0 0 0 0\nlayout fields ref\nthreads 1\n";

/// The turns of the collector before an epoch is wanted: it looks at the mutator's state, and at the epoch wanted.
const LOOKS: [Turn; 2] = [Turn::Moved, Turn::Idle(Place::Want, 0)];

/// Those up to the stop, behind which it waits for the mutator.
const COUNTS: [Turn; 4] = [
    Turn::Moved,
    Turn::Moved,
    Turn::Moved,
    Turn::Idle(Place::State(0), 1),
];

fn goes_in(board: Board<Page>) -> Board<Page>
    requires { MutatorAt Out None 0 board }
    ensures stands { MutatorAt Entering None 0 result }
    ensures collector { (k : Kept) → Agrees k (stand_at 1 board) → Agrees k (stand_at 1 result) }
{
    turn_laws();
    board.rule_holds();
    let mut seat = board.at(Caller(0));
    seat.store(Place::State(0), 1, Kind::K2);
    seat.into_board()
}

// A poll with which `gc` begins where it finds phase 0 of epoch 0.
fn begins(board: Board<Page>) -> (Board<Page>, u64)
    requires { MutatorAt Entering None 0 board }
    ensures stands { result.1 ≡ 0 → MutatorAt (Calling Collect) None 1 result.0 }
    ensures collector { (k : Kept) → Agrees k (stand_at 1 board) → Agrees k (stand_at 1 result.0) }
{
    turn_laws();
    board.rule_holds();
    let mut seat = board.at(Caller(0));
    let word = seat.poll(Some(Call::Collect));
    (seat.into_board(), word)
}

fn wants(board: Board<Page>) -> Board<Page>
    requires { MutatorAt (Calling Collect) None 1 board }
    ensures stands { MutatorAt Waiting (Some 1) 1 result }
    ensures collector { (k : Kept) → Agrees k (stand_at 1 board) → Agrees k (stand_at 1 result) }
{
    turn_laws();
    board.rule_holds();
    let mut seat = board.at(Caller(0));
    seat.raise(Place::Want, 1, Kind::K13);
    seat.into_board()
}

// A poll behind which the mutator leaves where it finds the stop of epoch 1.
fn leaves(board: Board<Page>) -> (Board<Page>, u64)
    requires { MutatorAt Waiting (Some 1) 1 board }
    ensures stands { result.1 ≡ 9 → MutatorAt Leaving (Some 1) 1 result.0 }
    ensures collector { (k : Kept) → Agrees k (stand_at 1 board) → Agrees k (stand_at 1 result.0) }
{
    turn_laws();
    board.rule_holds();
    let mut seat = board.at(Caller(0));
    let word = seat.poll(None);
    (seat.into_board(), word)
}

fn goes_out(board: Board<Page>) -> Board<Page>
    requires { MutatorAt Leaving (Some 1) 1 board }
    ensures stands { MutatorAt Out (Some 1) 1 result }
    ensures collector { (k : Kept) → Agrees k (stand_at 1 board) → Agrees k (stand_at 1 result) }
{
    turn_laws();
    board.rule_holds();
    let mut seat = board.at(Caller(0));
    seat.store(Place::State(0), 0, Kind::K2);
    seat.into_board()
}

// A mutator that may end does.
fn ends(board: Board<Page>) -> Board<Page>
    requires threads { board.heap.sizes.threads ≡ 1 }
    requires may { Allowed (stand_at 0 board) (lies_at board) (does K2 (State 0) (Stores 2)) }
    ensures threads { result.heap.sizes.threads ≡ 1 }
    ensures collector { (k : Kept) → Agrees k (stand_at 1 board) → Agrees k (stand_at 1 result) }
{
    turn_laws();
    board.rule_holds();
    let mut seat = board.at(Caller(0));
    seat.store(Place::State(0), 2, Kind::K2);
    seat.into_board()
}

/// The script of a text, where it has one thread with so many calls.
fn of_one(alloc: Global, text: &str, calls: u32) -> Option<Script>
    ensures good { IfSome result IsGoodScript }
    ensures threads { IfSome result (λ script. script.sizes.threads ≡ 1) }
    ensures calls { IfSome result (λ script. slice_index script.sizes.calls 0 ≡ calls) }
{
    let script = read(alloc, text)?;
    if script.sizes.threads == 1 && script.sizes.calls[0] == calls {
        Some(script)
    } else {
        None
    }
}

/// The board and the collector of a script of one thread, before any step.
fn opens(alloc: Global, script: &Script) -> Result<(Board<Page>, Collector), AllocError>
    requires good { IsGoodScript script.now }
    requires threads { script.now.sizes.threads ≡ 1 }
    ensures threads { IfOk result (λ o. o.0.heap.sizes.threads ≡ 1) }
    ensures agrees { IfOk result (λ o. Agrees o.1 (stand_at 1 o.0)) }
    ensures stands { IfOk result (λ o. slice_index script.now.sizes.calls 0 ≡ 1 → MutatorAt Out None 0 o.0) }
    ensures may_end { IfOk result (λ o. slice_index script.now.sizes.calls 0 ≡ 0
        → Allowed (stand_at 0 o.0) (lies_at o.0) (does K2 (State 0) (Stores 2))) }
{
    state_laws();
    turn_laws();
    let pages = open_pages(alloc, &script.sizes)?;
    let board = Board::open(alloc, &script.sizes, &script.layouts, pages)?;
    let collector = Collector::open(alloc, script)?;
    Ok((board, collector))
}

// One turn of the collector, unless it has ended.
fn collects_once(board: Board<Page>, collector: &mut Collector) -> (Board<Page>, Turn)
    requires threads { board.heap.sizes.threads ≡ 1 }
    requires agrees { Agrees collector.old (stand_at 1 board) }
    ensures threads { result.0.heap.sizes.threads ≡ 1 }
    ensures agrees { Agrees collector.new (stand_at 1 result.0) }
    ensures mutator { (at : Position) (target : Option ℕ) (calls : ℕ) → MutatorAt at target calls board → MutatorAt at target calls result.0 }
{
    turn_laws();
    if collector.has_ended() {
        return (board, Turn::Done);
    }
    board.rule_holds();
    let mut seat = board.at(Caller(1));
    let turn = collector.turn(&mut seat);
    (seat.into_board(), turn)
}

// Whether a turn is this one, of those of a stop.
fn is_so(turn: Turn, wanted: Turn) -> bool {
    match (turn, wanted) {
        (Turn::Moved, Turn::Moved) | (Turn::Done, Turn::Done) => true,
        (Turn::Idle(Place::Want, word), Turn::Idle(Place::Want, told)) => word == told,
        (Turn::Idle(Place::State(0), word), Turn::Idle(Place::State(0), told)) => word == told,
        _ => false,
    }
}

// So many turns of the collector, and whether they are these.
fn collects(board: Board<Page>, collector: &mut Collector, turns: &[Turn]) -> (Board<Page>, bool)
    requires threads { board.heap.sizes.threads ≡ 1 }
    requires agrees { Agrees collector.old (stand_at 1 board) }
    ensures threads { result.0.heap.sizes.threads ≡ 1 }
    ensures agrees { Agrees collector.new (stand_at 1 result.0) }
    ensures mutator { (at : Position) (target : Option ℕ) (calls : ℕ) → MutatorAt at target calls board → MutatorAt at target calls result.0 }
{
    let mut board = board;
    let mut are_so = true;
    for wanted in turns {
        let (next, turn) = collects_once(board, collector);
        board = next;
        are_so = are_so && is_so(turn, *wanted);
    }
    (board, are_so)
}

#[test]
fn a_collector_stops_a_mutator_and_stores_mark(rt: HostRuntime) -> Result<(), AllocError> {
    let alloc = rt.alloc();
    let script = of_one(alloc, ONE_CALL, 1).expect(&rt, "a script of one call");
    let (board, mut collector) = opens(alloc, &script)?;

    let board = goes_in(board);
    let (board, idle) = begins(board);
    assert!(rt; idle == 0);
    let (board, looks) = collects(board, &mut collector, &LOOKS);
    let board = wants(board);
    let (board, counts) = collects(board, &mut collector, &COUNTS);
    let (board, stop) = leaves(board);
    assert!(rt; stop == 9);
    let (board, waits) = collects(board, &mut collector, &[Turn::Idle(Place::State(0), 1)]);
    let board = goes_out(board);
    let (board, marks) = collects(board, &mut collector, &[Turn::Moved; 4]);
    let words = [
        board.word(Place::Phase),
        board.word(Place::Want),
        board.word(Place::Pending),
    ];
    assert!(rt; looks && counts && waits && marks && words == [10, 1, 3]);
    Ok(())
}

#[test]
fn a_collector_ends_behind_the_mutators(rt: HostRuntime) -> Result<(), AllocError> {
    let alloc = rt.alloc();
    let script = of_one(alloc, NO_CALL, 0).expect(&rt, "a script without calls");
    let (board, mut collector) = opens(alloc, &script)?;
    let board = ends(board);
    let (board, moved) = collects(board, &mut collector, &[Turn::Moved; 2]);
    let goes_on = !collector.has_ended();
    let (board, ended) = collects(board, &mut collector, &[Turn::Done]);
    let word = board.word(Place::State(1));
    assert!(rt; moved && goes_on && ended && collector.has_ended() && word == 2);
    Ok(())
}
