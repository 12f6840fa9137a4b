ghost use Rattle.std.specs.Prelude.{◌<◌, length};
ghost use Rattle.std.specs.List.{AllByRecursion};
ghost use Rattle.kn_lines.specs.Ranges.{IsOrderWord};

use crate::Schedule;
use kn_base::Code;
use kn_lines::{Actor, OrderWord, Until};
use std::alloc::{AllocError, Global};
use std::test::Fail;

/// The turns of two threads that end after 2 and 3 turns, and of a collector that ends after 4. Each
/// turn of a thread answers a call, and from the collector's second turn on the phase is Mark.
fn turns_of(alloc: Global, words: &[OrderWord]) -> Result<Vec<u8>, AllocError>
    requires { AllByRecursion (IsOrderWord 2) words.now }
{
    let mut schedule = Schedule::open(Vec::from_slice(alloc, words)?, 2);
    let mut turns = Vec::new(alloc);
    let mut made: [u32; 3] = [0, 0, 0];
    for _ in 0..12 {
        let ended = [made[0] >= 2, made[1] >= 3, made[2] >= 4];
        let code = if made[2] >= 2 { Code::Mark } else { Code::Idle };
        if let Some(actor) = schedule.next_turn(&ended, &made, code) {
            turns.push(actor)?;
            made[usize::from(actor)] = made[usize::from(actor)].saturating_add(1);
        }
    }
    Ok(turns)
}

#[test]
fn turns_are_in_order(rt: HostRuntime) -> Result<(), Fail> {
    let one = OrderWord::Run(Actor::Thread(1), Until::Calls(1));
    let mark = Until::Code(Code::Mark);
    let cases: [(&[OrderWord], &[u8]); 9] = [
        (&[], &[0, 1, 2, 0, 1, 2, 1, 2, 2]),
        (
            &[OrderWord::Run(Actor::Thread(1), Until::Turns(9))],
            &[1, 1, 1, 0, 2, 0, 2, 2, 2],
        ),
        (
            &[OrderWord::Run(Actor::Collector, Until::Turns(2)), one, one],
            &[2, 2, 1, 0, 1, 2, 0, 1, 2],
        ),
        (
            &[one, OrderWord::Run(Actor::Round, Until::Turns(1)), one],
            &[1, 0, 1, 2, 0, 1, 2, 2, 2],
        ),
        (
            &[OrderWord::Run(Actor::Round, Until::Turns(9))],
            &[0, 1, 2, 0, 1, 2, 1, 2, 2],
        ),
        // The round ends behind the turn that brings the phase.
        (
            &[
                OrderWord::Run(Actor::Thread(0), Until::Turns(1)),
                OrderWord::Run(Actor::Round, mark),
                one,
            ],
            &[0, 0, 1, 2, 1, 2, 1, 2, 2],
        ),
        (
            &[
                OrderWord::Run(Actor::Collector, mark),
                OrderWord::Run(Actor::Round, mark),
            ],
            &[2, 2, 0, 1, 2, 0, 1, 2, 1],
        ),
        (
            &[
                OrderWord::Run(Actor::Thread(0), mark),
                OrderWord::Run(Actor::Thread(1), Until::Turns(1)),
            ],
            &[0, 0, 1, 1, 2, 1, 2, 2, 2],
        ),
        (
            &[
                OrderWord::Run(Actor::Finalizer, Until::Turns(3)),
                OrderWord::Uninstall(0),
            ],
            &[0, 1, 2, 0, 1, 2, 1, 2, 2],
        ),
    ];
    for (words, wanted) in cases {
        let turns = turns_of(rt.alloc(), words)?;
        assert!(rt; turns.as_slice() == wanted);
    }
    Ok(())
}
