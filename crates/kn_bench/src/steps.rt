ghost use Rattle.kn_base.specs.Spans.{IsSpan};

use crate::cells::Cells;
use crate::orders::{Way, Which, slots_in};
use kn_base::Span;
use std::io;
use std::rt::Clock;
use std::time::Instant;

/// What is done at each slot.
#[derive(Clone, Copy)]
enum Action {
    Take,
    Release,
}

/// One measurement: an action at each of some slots, in an order.
#[derive(Clone, Copy)]
struct Step(Action, Which, Way);

const STEPS: [Step; 14] = [
    Step(Action::Take, Which::All, Way::Up),
    Step(Action::Release, Which::All, Way::Down),
    Step(Action::Take, Which::All, Way::Up),
    Step(Action::Release, Which::All, Way::Up),
    Step(Action::Take, Which::All, Way::Up),
    Step(Action::Release, Which::All, Way::Shuffled),
    Step(Action::Take, Which::All, Way::Up),
    Step(Action::Release, Which::Even, Way::Down),
    Step(Action::Take, Which::Even, Way::Up),
    Step(Action::Release, Which::Even, Way::Up),
    Step(Action::Release, Which::Odd, Way::Shuffled),
    Step(Action::Take, Which::All, Way::Up),
    Step(Action::Release, Which::Even, Way::Shuffled),
    Step(Action::Release, Which::Odd, Way::Down),
];

/// Goes through the steps over a frame, and prints what each did: its name, the calls that did
/// something, in a timed run the time of one, and the free spans behind it.
pub fn run_steps(
    rt: &(impl AllocGlobal + Clock + Print),
    frame: Span,
    timed: bool,
) -> io::Result<()>
    requires { IsSpan frame }
{
    let mut cells = Cells::open(rt.alloc(), frame)?;
    for step in &STEPS {
        let slots = slots_in(rt.alloc(), step.1, step.2, cells.len())?;
        let start = Instant::now(rt)?;
        let calls = run_step(&mut cells, step.0, &slots);
        let time = start.elapsed(rt)?;
        let name = name_of(*step);
        let free = cells.free_spans();
        if timed && calls > 0 {
            println!(rt;
                "{name}: {calls} calls, {:?} each, {free} free spans",
                time / calls
            )?;
        } else {
            println!(rt; "{name}: {calls} calls, {free} free spans")?;
        }
    }
    Ok(())
}

/// Does an action at each of the slots, and answers how often it did something.
fn run_step(cells: &mut Cells, action: Action, slots: &[usize]) -> u32 {
    let mut calls: u32 = 0;
    for slot in slots {
        let done = match action {
            Action::Take => cells.take(*slot),
            Action::Release => cells.release(*slot),
        };
        if done {
            calls = calls.saturating_add(1);
        }
    }
    calls
}

/// The words for a step.
fn name_of(step: Step) -> &'static str {
    match step {
        Step(Action::Take, Which::All, _) => "take all",
        Step(Action::Take, _, _) => "take those again",
        Step(Action::Release, Which::All, Way::Up) => "release all upwards",
        Step(Action::Release, Which::All, Way::Down) => "release all downwards",
        Step(Action::Release, Which::All, Way::Shuffled) => "release all in random order",
        Step(Action::Release, Which::Even, Way::Up) => "release every other one upwards",
        Step(Action::Release, Which::Even, Way::Down) => "release every other one downwards",
        Step(Action::Release, Which::Even, Way::Shuffled) => {
            "release every other one in random order"
        }
        Step(Action::Release, Which::Odd, Way::Up) => "release those between upwards",
        Step(Action::Release, Which::Odd, Way::Down) => "release those between downwards",
        Step(Action::Release, Which::Odd, Way::Shuffled) => {
            "release those between in random order"
        }
    }
}
