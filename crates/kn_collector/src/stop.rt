//! The stop of an epoch: its store, the counting of mutators, the count of open work, and Mark.
ghost use Rattle.std.specs.Prelude.{◌≡◌, ◌<◌};
ghost use Rattle.kn_collector.specs.declared.stage.Stage.TheVariants.{Stops, Counts, Begins, Marks};
ghost use Rattle.kn_collector.specs.Stages;
ghost use Rattle.kn_collector.specs.Agree.{Agrees};
ghost use Rattle.kn_collector.specs.Turns.{Goes};

use crate::collector::Collector;
use crate::stage::Stage;
use kn_base::{Code, Home, PhaseWord, Place};
use kn_rule::Kind;
use kn_steps::{Steps, Turn};

impl Collector {
    pub(crate) fn stops<P: Home, T: Steps<P>>(&mut self, steps: &mut T) -> Turn
        requires agrees { Agrees self.old (T.stand steps.old) }
        requires stage { self.old.stage ≡ Stops }
        ensures { Goes T.stand T.here T.did T.moved self.old steps.old steps.new self.new result }
    {
        let epoch = self.epoch + 1;
        steps.store(Place::Phase, phase_word(epoch, Code::StopA), Kind::K14);
        self.epoch = epoch;
        self.goes_to(Stage::Counts(0));
        Turn::Moved
    }

    pub(crate) fn counts<P: Home, T: Steps<P>>(&mut self, steps: &mut T, mutator: u8) -> Turn
        requires agrees { Agrees self.old (T.stand steps.old) }
        requires stage { self.old.stage ≡ Counts mutator }
        ensures { Goes T.stand T.here T.did T.moved self.old steps.old steps.new self.new result }
    {
        let word = steps.load(Place::State(mutator), Kind::K15);
        self.hears(mutator, word)
    }

    // Behind the state of a mutator in the stop.
    fn hears(&mut self, mutator: u8, word: u64) -> Turn
        requires stage { self.old.stage ≡ Counts mutator }
        requires mutator { mutator < self.old.by }
        ensures behind { self.new ≡ Stages.behind self.old (Counts mutator) word }
        ensures answer { result ≡ Stages.answer_behind self.old (Counts mutator) word }
    {
        if word == 1 {
            Turn::Idle(Place::State(mutator), word)
        } else {
            self.stage = counted(self.by, mutator);
            Turn::Moved
        }
    }

    pub(crate) fn begins<P: Home, T: Steps<P>>(&mut self, steps: &mut T) -> Turn
        requires agrees { Agrees self.old (T.stand steps.old) }
        requires stage { self.old.stage ≡ Begins }
        ensures { Goes T.stand T.here T.did T.moved self.old steps.old steps.new self.new result }
    {
        steps.store(Place::Pending, u64::from(self.by) + 2, Kind::K16);
        self.goes_to(Stage::Marks);
        Turn::Moved
    }

    pub(crate) fn marks<P: Home, T: Steps<P>>(&mut self, steps: &mut T) -> Turn
        requires agrees { Agrees self.old (T.stand steps.old) }
        requires stage { self.old.stage ≡ Marks }
        ensures { Goes T.stand T.here T.did T.moved self.old steps.old steps.new self.new result }
    {
        steps.store(Place::Phase, phase_word(self.epoch, Code::Mark), Kind::K14);
        self.marker.start(self.epoch);
        self.goes_to(Stage::Marking);
        Turn::Moved
    }
}

// The word of a phase.
pub(crate) fn phase_word(epoch: u32, code: Code) -> u64
    ensures { result ≡ Stages.phase_word epoch code }
{
    PhaseWord { epoch, code }.pack()
}

// The stage behind a mutator that was counted, where n is the number of mutators.
fn counted(n: u8, mutator: u8) -> Stage
    requires { mutator < n }
    ensures { result ≡ Stages.counted n mutator }
{
    if mutator + 1 < n {
        Stage::Counts(mutator + 1)
    } else {
        Stage::Begins
    }
}
