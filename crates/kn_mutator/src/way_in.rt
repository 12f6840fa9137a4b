//! The way in: its safepoint makes the turns.
ghost use Rattle.std.specs.Prelude.{◌≡◌, None, Some};
ghost use Rattle.kn_safepoint.specs.declared.stage.Stage.TheVariants as stages;
ghost use Rattle.kn_mutator.specs.declared.task.Task.TheVariants.{Out, GoesIn, Enters};
ghost use Rattle.kn_mutator.specs.Tasks;
ghost use Rattle.kn_mutator.specs.Agree.{Agrees};
ghost use Rattle.kn_mutator.specs.Turns.{Goes, GoesOrStops, asks_none};

use crate::gate::Gate;
use crate::mutator::{Mutator, told};
use crate::task::Task;
use kn_page::Page;
use kn_safepoint::{Enter, Stage};
use kn_steps::{Steps, Turn};

impl Mutator {
    // Out: the phase says whether it goes in, or helps.
    pub(crate) fn looks<T: Steps<Page>>(&mut self, steps: &mut T) -> Turn
        requires agrees { Agrees self.old (T.stand steps.old) (T.here steps.old) }
        requires task { self.old.task ≡ Out }
        ensures { Goes T.stand T.here T.did T.moved asks_none self.old steps.old steps.new self.new result }
    {
        let mut safepoint = self.safepoint(Stage::Out);
        match safepoint.enter_turn(steps, None) {
            Enter::Help(epoch) => self.starts_to_help(epoch),
            enter => {
                self.goes_to(task_for(safepoint.stage()));
                told(enter)
            }
        }
    }

    pub(crate) fn goes_in<T: Steps<Page>>(&mut self, steps: &mut T) -> Turn
        requires agrees { Agrees self.old (T.stand steps.old) (T.here steps.old) }
        requires task { self.old.task ≡ GoesIn }
        ensures { Goes T.stand T.here T.did T.moved asks_none self.old steps.old steps.new self.new result }
    {
        let mut safepoint = self.safepoint(Stage::GoesIn);
        safepoint.enter_turn(steps, None);
        self.goes_to(Task::Enters);
        Turn::Moved
    }

    // Entering: the phase is loaded for the epoch that it waits for, or else for the next call.
    pub(crate) fn enters<T: Steps<Page>, G: Gate>(&mut self, steps: &mut T, gate: &G) -> Turn
        requires agrees { Agrees self.old (T.stand steps.old) (T.here steps.old) }
        requires task { self.old.task ≡ Enters }
        ensures { GoesOrStops T.stand T.here T.did T.moved (G.told gate.now) self.old steps.old steps.new self.new result }
    {
        match self.target {
            None => self.enters_for_call(steps, gate),
            Some(target) => self.enters_for(steps, target),
        }
    }

    // Entering, with no epoch wanted: in a run phase the next call begins, where the gate lets it pass.
    fn enters_for_call<T: Steps<Page>, G: Gate>(&mut self, steps: &mut T, gate: &G) -> Turn
        requires agrees { Agrees self.old (T.stand steps.old) (T.here steps.old) }
        requires task { self.old.task ≡ Enters }
        requires target { self.old.target ≡ None }
        ensures { Goes T.stand T.here T.did T.moved (G.told gate.now) self.old steps.old steps.new self.new result }
    {
        let passed = gate.pass(self.by, self.begun);
        let next = self.next_call(passed);
        let mut safepoint = self.safepoint(Stage::Enters);
        match safepoint.enter_turn(steps, next) {
            Enter::In(phase) => self.hears_in(next, phase.pack()),
            _ => self.goes_out(),
        }
    }

    // Entering, with an epoch wanted: a run phase lets it in, and is judged.
    fn enters_for<T: Steps<Page>>(&mut self, steps: &mut T, target: u64) -> Turn
        requires agrees { Agrees self.old (T.stand steps.old) (T.here steps.old) }
        requires task { self.old.task ≡ Enters }
        requires target { self.old.target ≡ Some target }
        ensures { Goes T.stand T.here T.did T.moved asks_none self.old steps.old steps.new self.new result }
    {
        let mut safepoint = self.safepoint(Stage::Enters);
        match safepoint.enter_turn(steps, None) {
            Enter::In(phase) => self.waits_in(target, phase.pack()),
            _ => self.goes_out(),
        }
    }
}

// The task of one that is out and does not help, where its safepoint is at a stage.
fn task_for(stage: Stage) -> Task
    ensures { result ≡ Tasks.task_for stage }
{
    match stage {
        Stage::GoesIn => Task::GoesIn,
        Stage::Out | Stage::Enters | Stage::GoesBack | Stage::In => Task::Out,
    }
}
