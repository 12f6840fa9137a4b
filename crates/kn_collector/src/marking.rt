//! Mark, the pause, and what comes behind it.
ghost use Rattle.std.specs.Prelude.{◌≡◌, ◌<◌, [], ◌∷◌, ◌++◌, length};
ghost use Rattle.kn_base.specs.declared.limits.TheConstants.{MOST_CALLS};
ghost use Rattle.kn_rule.specs.Steps.{pause_of};
ghost use Rattle.kn_collector.specs.declared.stage.Stage.TheVariants.{Marking, Pauses, Paused};
ghost use Rattle.kn_collector.specs.Stages.{marked_answer, marked_stage};
ghost use Rattle.kn_collector.specs.Agree.{Agrees};
ghost use Rattle.kn_collector.specs.Turns.{Goes};

use crate::collector::Collector;
use crate::stage::Stage;
use crate::stop::phase_word;
use kn_base::{Caller, Code, Home, Place};
use kn_graph::{Entry, Event};
use kn_mark::MarkTurn;
use kn_rule::Kind;
use kn_steps::{Steps, Turn};

impl Collector {
    pub(crate) fn goes_on_marking<P: Home, T: Steps<P>>(&mut self, steps: &mut T) -> Turn
        requires agrees { Agrees self.old (T.stand steps.old) }
        requires stage { self.old.stage ≡ Marking }
        ensures { Goes T.stand T.here T.did T.moved self.old steps.old steps.new self.new result }
    {
        let told = self.marker.turn(steps, &self.layouts);
        self.learns(told)
    }

    // Behind a turn of its marker.
    fn learns(&mut self, told: MarkTurn) -> Turn
        requires { self.old.stage ≡ Marking }
        ensures behind { self.new ≡ record self.old { stage = marked_stage told } }
        ensures answer { result ≡ marked_answer told }
    {
        match told {
            MarkTurn::Moved => Turn::Moved,
            MarkTurn::Idle(place, word) => Turn::Idle(place, word),
            MarkTurn::Over => {
                self.stage = Stage::Pauses;
                Turn::Moved
            }
        }
    }

    pub(crate) fn pauses<P: Home, T: Steps<P>>(&mut self, steps: &mut T) -> Turn
        requires agrees { Agrees self.old (T.stand steps.old) }
        requires stage { self.old.stage ≡ Pauses }
        ensures { Goes T.stand T.here T.did T.moved self.old steps.old steps.new self.new result }
    {
        steps.store(Place::Phase, phase_word(self.epoch, Code::Weak), Kind::K14);
        self.says_pause();
        self.goes_to(Stage::Paused);
        Turn::Moved
    }

    // The pause of its epoch is logged.
    fn says_pause(&mut self)
        requires { length self.old.log < MOST_CALLS }
        ensures { self.new ≡ record self.old { log = self.old.log ++ pause_of self.old.by self.old.epoch ∷ [] } }
    {
        let entry = Entry {
            by: Caller(self.by),
            epoch: self.epoch,
            what: Event::Pause(self.epoch),
        };
        if self.log.push(entry).is_err() {
            unreachable!();
        }
    }

    pub(crate) fn rests<P: Home, T: Steps<P>>(&mut self, steps: &mut T) -> Turn
        requires agrees { Agrees self.old (T.stand steps.old) }
        requires stage { self.old.stage ≡ Paused }
        ensures { Goes T.stand T.here T.did T.moved self.old steps.old steps.new self.new result }
    {
        let word = steps.load(Place::State(0), Kind::K15);
        Turn::Idle(Place::State(0), word)
    }
}
