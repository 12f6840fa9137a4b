//! Births: the allocator gets a cell, and the object is born in it.
ghost use Rattle.std.specs.Prelude.{◌≡◌, ◌<◌, length, true};
ghost use Rattle.kn_graph.specs.Arguments.{IsInRange};
ghost use Rattle.kn_graph.specs.Counts.{makes_object};
ghost use Rattle.kn_graph.specs.declared.calls.Call.{Call};
ghost use Rattle.kn_mutator.specs.declared.task.Task.TheVariants.{Births};
ghost use Rattle.kn_mutator.specs.After.{born};
ghost use Rattle.kn_mutator.specs.Agree.{Agrees};
ghost use Rattle.kn_mutator.specs.Begun.{Bears};
ghost use Rattle.kn_mutator.specs.Turns.{GoesOrStops, asks_none};

use crate::mutator::Mutator;
use crate::task::Task;
use kn_alloc::AllocTurn;
use kn_graph::{Call, Reply};
use kn_page::Page;
use kn_steps::{Steps, Turn};

impl Mutator {
    // The allocator makes its turn for the birth.
    pub(crate) fn gets_cell<T: Steps<Page>>(&mut self, steps: &mut T) -> Turn
        requires agrees { Agrees self.old (T.stand steps.old) (T.here steps.old) }
        requires task { (call : Call) × (self.old.task ≡ Births call) }
        ensures { GoesOrStops T.stand T.here T.did T.moved asks_none self.old steps.old steps.new self.new result }
    {
        match self.allocator.turn(steps) {
            AllocTurn::Moved => {}
            AllocTurn::Full => {
                let call = self.birth();
                self.answers(call, Reply::Full);
            }
            AllocTurn::Born(address) => {
                let call = self.birth();
                self.bears(call, address);
            }
        }
        Turn::Moved
    }

    // The call of the birth that is under way.
    fn birth(&self) -> Call
        requires { (call : Call) × (self.now.task ≡ Births call) }
        ensures { self.now.task ≡ Births result }
    {
        match self.task {
            Task::Births(call) => call,
            _ => unreachable!(),
        }
    }

    // The object of a call is born.
    fn bears(&mut self, call: Call, address: u32)
        requires room { length self.old.log < length self.old.calls }
        requires in_range { IsInRange self.old.heap call }
        requires birth { makes_object call ≡ true }
        ensures { Bears self.old call address self.new }
    {
        match call {
            Call::New(r, _) => self.bears_for(call, r, address),
            Call::NewArray(r, _, _) => self.bears_for(call, r, address),
            _ => unreachable!(),
        }
    }

    fn bears_for(&mut self, call: Call, r: u8, address: u32)
        requires room { length self.old.log < length self.old.calls }
        requires local { r < 16 }
        ensures { self.new ≡ born self.old call r address }
    {
        self.locals[usize::from(r)] = address;
        self.says(call, Reply::Ok, address);
        self.goes_to(Task::Writes(r, address));
    }
}
