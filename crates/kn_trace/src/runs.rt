//! A run of a script, from its opening to its end.
ghost use Rattle.std.specs.Prelude.{◌≡◌, ◌+◌, ◌<◌, ◌^◌, IfOk, false, length, sum_by};
ghost use Rattle.kn_graph.specs.Histories.{IsLegal};
ghost use Rattle.kn_graph.specs.Logs.{LogsFit};
ghost use Rattle.kn_script.specs.Good.{IsGoodScript};
ghost use Rattle.kn_script.specs.Scripts.{ground_of};
ghost use Rattle.kn_trace.specs.Between.{Holds, trace_of};
ghost use Rattle.kn_trace.specs.Runs.{AreBuilt, AreComplete, ArePartial, IsRunOf, IsStart};

use crate::actors::Actors;
use kn_board::Board;
use kn_others::laws::turn_laws;
use kn_page::{Page, open_pages};
use kn_report::Log;
use kn_script::{Script, state_laws};
use std::alloc::{AllocError, Global};

/// What a run leaves: the board, the log of each caller (the threads, the collector, the finalizer), and
/// whether its turns were spent with some actor not ended.
#[derive(Drop)]
pub struct Traced {
    pub board: Board<Page>,
    pub logs: Vec<Log>,
    pub is_spent: bool,
}

/// The board and the actors of a script, before the first turn.
#[derive(Drop)]
struct Opened {
    board: Board<Page>,
    actors: Actors,
}

fn open_run(alloc: Global, script: &Script) -> Result<Opened, AllocError>
    requires good { IsGoodScript script.now }
    requires built { AreBuilt script.now.threads }
    ensures start { IfOk result (λ opened. IsStart script.now (trace_of opened.board opened.actors)) }
    ensures holds { IfOk result (λ opened. Holds (trace_of opened.board opened.actors)) }
{
    state_laws();
    turn_laws();
    let pages = open_pages(alloc, &script.sizes)?;
    let board = Board::open(alloc, &script.sizes, &script.layouts, pages)?;
    let actors = Actors::open(alloc, script)?;
    Ok(Opened { board, actors })
}

/// Runs a script on a board, until each thread and the collector have ended or the turns are spent.
/// An error is want of memory.
pub fn trace(alloc: Global, script: &Script) -> Result<Traced, AllocError>
    requires good { IsGoodScript script.now }
    requires built { AreBuilt script.now.threads }
    ensures heap { IfOk result (λ traced. traced.board.heap ≡ ground_of script.now) }
    ensures run { IfOk result (λ traced. IsRunOf script.now traced.is_spent traced.board) }
    ensures legal { IfOk result (λ traced. IsLegal (ground_of script.now) traced.board.history) }
    ensures logs { IfOk result (λ traced. LogsFit (script.now.sizes.threads + 2) traced.logs.items traced.board.history) }
    ensures complete { IfOk result (λ traced. traced.is_spent ≡ false → AreComplete script.now traced.board.history) }
    ensures partial { IfOk result (λ traced. ArePartial script.now traced.board.history) }
    ensures few { IfOk result (λ traced. sum_by (λ log. length log) traced.logs.items < 2 ^ 32) }
{
    let opened = open_run(alloc, script)?;
    let mut actors = opened.actors;
    let board = actors.take_turns(opened.board, script.turns);
    let is_spent = actors.is_going_on();
    let logs = actors.into_logs(alloc)?;
    board.rule_holds();
    Ok(Traced {
        board,
        logs,
        is_spent,
    })
}
