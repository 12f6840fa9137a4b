//! Pages go home: before the next call, before the mutator is out, and before it has ended.
ghost use Rattle.std.specs.Prelude.{◌≡◌};
ghost use Rattle.kn_mutator.specs.declared.task.Task.TheVariants.{SendsSingle, Leaves, Ends};
ghost use Rattle.kn_mutator.specs.Agree.{Agrees};
ghost use Rattle.kn_mutator.specs.Turns.{Goes, asks_none};

use crate::mutator::Mutator;
use crate::task::Task;
use kn_alloc::HomeTurn;
use kn_base::Place;
use kn_page::Page;
use kn_rule::Kind;
use kn_safepoint::Stage;
use kn_steps::{Steps, Turn};

impl Mutator {
    // The page for a single object goes into its slot, and then its frame is given back.
    pub(crate) fn sends_single<T: Steps<Page>>(&mut self, steps: &mut T) -> Turn
        requires agrees { Agrees self.old (T.stand steps.old) (T.here steps.old) }
        requires task { self.old.task ≡ SendsSingle }
        ensures { Goes T.stand T.here T.did T.moved asks_none self.old steps.old steps.new self.new result }
    {
        match self.allocator.put_home_turn(steps) {
            HomeTurn::Moved => {
                if self.allocator.is_resting() {
                    self.goes_to(Task::Polls);
                }
                Turn::Moved
            }
            HomeTurn::Done => unreachable!(),
        }
    }

    // A page goes home, or the mutator is out.
    pub(crate) fn leaves<T: Steps<Page>>(&mut self, steps: &mut T) -> Turn
        requires agrees { Agrees self.old (T.stand steps.old) (T.here steps.old) }
        requires task { self.old.task ≡ Leaves }
        ensures { Goes T.stand T.here T.did T.moved asks_none self.old steps.old steps.new self.new result }
    {
        match self.allocator.put_home_turn(steps) {
            HomeTurn::Moved => {}
            HomeTurn::Done => {
                self.safepoint(Stage::In).leave_turn(steps);
                self.goes_to(Task::Out);
            }
        }
        Turn::Moved
    }

    // A page goes home, or the mutator has ended.
    pub(crate) fn ends<T: Steps<Page>>(&mut self, steps: &mut T) -> Turn
        requires agrees { Agrees self.old (T.stand steps.old) (T.here steps.old) }
        requires task { self.old.task ≡ Ends }
        ensures { Goes T.stand T.here T.did T.moved asks_none self.old steps.old steps.new self.new result }
    {
        match self.allocator.put_home_turn(steps) {
            HomeTurn::Moved => Turn::Moved,
            HomeTurn::Done => {
                steps.store(Place::State(self.by), 2, Kind::K2);
                self.goes_to(Task::Ended);
                Turn::Done
            }
        }
    }
}
