//! Waiting for the epoch of a `gc`.
ghost use Rattle.std.specs.Prelude.{◌≡◌, ℕ, ◌<◌, ◌^◌, Option, Some, length};
ghost use Rattle.kn_graph.specs.declared.calls.Call.TheVariants.{Collect};
ghost use Rattle.kn_mutator.specs.declared.task.Task.TheVariants.{Calls, Waits};
ghost use Rattle.kn_mutator.specs.After.{awaited, told_epoch};
ghost use Rattle.kn_mutator.specs.Agree.{Agrees};
ghost use Rattle.kn_mutator.specs.Begun.{WaitsIn};
ghost use Rattle.kn_mutator.specs.Turns.{Goes, asks_none};

use crate::mutator::{Mutator, idle_at};
use crate::task::Task;
use kn_base::Place;
use kn_graph::{Call, Reply};
use kn_page::Page;
use kn_rule::Kind;
use kn_steps::{Steps, Turn};
use kn_view::{is_done, pauses_before, runs};

impl Mutator {
    // Raises the epoch wanted to the one behind its own, and waits for it.
    pub(crate) fn collects<T: Steps<Page>>(&mut self, steps: &mut T) -> Turn
        requires agrees { Agrees self.old (T.stand steps.old) (T.here steps.old) }
        requires task { (header : Option ℕ) × (self.old.task ≡ Calls Collect header) }
        ensures { Goes T.stand T.here T.did T.moved asks_none self.old steps.old steps.new self.new result }
    {
        let target = u64::from(self.epoch) + 1;
        steps.raise(Place::Want, target, Kind::K13);
        self.wants(target);
        Turn::Moved
    }

    // It waits for an epoch from now on.
    fn wants(&mut self, target: u64)
        ensures { self.new ≡ record self.old { target = Some target; task = Waits } }
    {
        self.target = Some(target);
        self.task = Task::Waits;
    }

    // In, with an epoch wanted: each phase is judged, and one that is no run phase makes it leave.
    pub(crate) fn waits<T: Steps<Page>>(&mut self, steps: &mut T) -> Turn
        requires agrees { Agrees self.old (T.stand steps.old) (T.here steps.old) }
        requires task { self.old.task ≡ Waits }
        ensures { Goes T.stand T.here T.did T.moved asks_none self.old steps.old steps.new self.new result }
    {
        match self.target {
            None => unreachable!(),
            Some(target) => self.waits_for(steps, target),
        }
    }

    fn waits_for<T: Steps<Page>>(&mut self, steps: &mut T, target: u64) -> Turn
        requires agrees { Agrees self.old (T.stand steps.old) (T.here steps.old) }
        requires task { self.old.task ≡ Waits }
        requires target { self.old.target ≡ Some target }
        ensures { Goes T.stand T.here T.did T.moved asks_none self.old steps.old steps.new self.new result }
    {
        let word = steps.poll(None);
        if runs(word) {
            self.waits_in(target, word)
        } else {
            self.awaits(target, word, Task::Leaves);
            Turn::Moved
        }
    }

    // In a run phase, which is polled: it is answered, or goes on waiting.
    pub(crate) fn waits_in(&mut self, target: u64, word: u64) -> Turn
        requires room { length self.old.log < length self.old.calls }
        requires word { word < 2 ^ 35 }
        ensures { WaitsIn self.old target word self.new result }
    {
        self.polled_in(pauses_before(word));
        self.awaits(target, word, Task::Waits);
        idle_at(word, !is_done(target, word))
    }

    // Where the epoch is done, the `gc` is answered; else this is the task.
    fn awaits(&mut self, target: u64, word: u64, task: Task)
        requires room { length self.old.log < length self.old.calls }
        requires word { word < 2 ^ 35 }
        ensures { self.new ≡ awaited self.old target word task }
    {
        if is_done(target, word) {
            self.tells(target, word);
        } else {
            self.goes_to(task);
        }
    }

    fn tells(&mut self, target: u64, word: u64)
        requires room { length self.old.log < length self.old.calls }
        requires word { word < 2 ^ 35 }
        requires short { target < 2 ^ 32 }
        ensures { self.new ≡ told_epoch self.old target word }
    {
        self.target = None;
        let reply = Reply::Epoch(target as u32);
        self.says_in(pauses_before(word), Call::Collect, reply, 0);
        self.rests();
    }
}
