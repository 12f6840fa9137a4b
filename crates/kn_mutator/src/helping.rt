//! Help with a marking: the marker makes the turns.
ghost use Rattle.std.specs.Prelude.{◌≡◌};
ghost use Rattle.kn_steps.specs.declared.turns.Turn.TheVariants.{Moved};
ghost use Rattle.kn_mark.specs.Kept.{started};
ghost use Rattle.kn_mutator.specs.declared.task.Task.TheVariants as tasks;
ghost use Rattle.kn_mutator.specs.Agree.{Agrees};
ghost use Rattle.kn_mutator.specs.Turns.{Goes, asks_none};

use crate::mutator::Mutator;
use crate::task::Task;
use kn_mark::MarkTurn;
use kn_page::Page;
use kn_steps::{Steps, Turn};

impl Mutator {
    // Out, behind a load of Mark: its marker begins with that epoch.
    pub(crate) fn starts_to_help(&mut self, epoch: u32) -> Turn
        ensures after { self.new ≡ record self.old { marker = started self.old.marker epoch; task = tasks.Helps } }
        ensures answer { result ≡ Moved }
    {
        self.marker.start(epoch);
        self.task = Task::Helps;
        Turn::Moved
    }

    // The marker makes its turn; where it finds no work open, the phase is loaded next.
    pub(crate) fn helps<T: Steps<Page>>(&mut self, steps: &mut T) -> Turn
        requires agrees { Agrees self.old (T.stand steps.old) (T.here steps.old) }
        requires task { self.old.task ≡ tasks.Helps }
        ensures { Goes T.stand T.here T.did T.moved asks_none self.old steps.old steps.new self.new result }
    {
        match self.marker.turn(steps, self.layouts.as_slice()) {
            MarkTurn::Moved => Turn::Moved,
            MarkTurn::Idle(place, word) => Turn::Idle(place, word),
            MarkTurn::Over => {
                self.goes_to(Task::Out);
                Turn::Moved
            }
        }
    }
}
