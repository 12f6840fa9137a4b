//! What the collector's steps, and a wish for an epoch, make of a view.
ghost use Rattle.std.specs.Prelude.{◌≡◌, ℕ, ◌<◌, ◌^◌, length, true};
ghost use Rattle.kn_base.specs.declared.places.Place.{Place};
ghost use Rattle.kn_base.specs.declared.places.Place.TheVariants.{State};
ghost use Rattle.kn_graph.specs.Ground.{Ground};
ghost use Rattle.kn_rule.specs.declared.steps.Action.{Action};
ghost use Rattle.kn_rule.specs.declared.steps.Action.TheVariants.{Loads, Stores};
ghost use Rattle.kn_rule.specs.Decoding.{phase_of};
ghost use Rattle.kn_rule.specs.Steps.{Found, more};
ghost use Rattle.kn_rule.specs.Views.{View};
ghost use Rattle.kn_rule.specs.Outcomes.{count_at, counted_from, paused_at, phase_stored, state_loaded, wanted_at};
ghost use Rattle.kn_view.specs.Told.{IsShort, Makes, Says};

use crate::history::History;
use crate::known::Known;
use crate::shares::joined;
use crate::words::{pauses_before, stops};
use kn_base::Caller;
use kn_graph::{Entry, Event};
use kn_rule::{Action, Position};

impl Known {
    /// What a raise of the epoch wanted, or a load of it, makes of it.
    pub fn wants(&mut self, word: u64)
        ensures { (z : Ground) (c : ℕ) (p : _) (a : Action) (f : Found) → f.word ≡ word →
            Makes z self.old self.new (λ v. wanted_at z c v p a f self.old.position) }
    {
        match self.position {
            Position::Calling(_) => {
                self.target = Some(u64::from(pauses_before(self.polled)) + 1);
                self.stands(Position::Waiting);
            }
            _ => self.wanted = word,
        }
    }

    /// What a store of the phase makes of it.
    pub fn stores_phase(&mut self, history: &mut History, by: u8, word: u64)
        requires word { word < 2 ^ 35 }
        requires short { IsShort history.old }
        ensures { (z : Ground) (p : _) (f : Found) → z.sizes.threads ≡ length self.old.counted →
            Says z self.old self.new history.old history.new (λ v. phase_stored z by v p (Stores word) f) }
    {
        self.keeps_phase(word);
        self.work = joined(self.work, word);
        tells_pause(history, by, word);
    }

    // The phase word is kept, and with a stop the counting of mutators begins anew.
    fn keeps_phase(&mut self, word: u64)
        ensures { (z : Ground) (c : ℕ) (v : View) (p : Place) (a : Action) (f : Found) → z.sizes.threads ≡ length self.old.counted →
            self.new ≡ record self.old { stored = word; counted = counted_from z c v p a f (phase_of word).code self.old.counted } }
    {
        self.stored = word;
        if stops(word) {
            self.counted.fill(false);
        }
    }

    /// What a load of a mutator's state makes of it.
    pub fn loads_state(&mut self, mutator: u8, word: u64)
        requires counted { mutator < length self.old.counted }
        requires ended { mutator < length self.old.ended }
        ensures { (z : Ground) (c : ℕ) (a : Action) (f : Found) → f.word ≡ word →
            Makes z self.old self.new (λ v. state_loaded z c v (State mutator) a f) }
    {
        self.counted[usize::from(mutator)] = word != 1;
        self.ended[usize::from(mutator)] = word == 2;
    }

    /// What the store that begins the marking, or a load of the count of open work, makes of it.
    pub fn counts_work(&mut self, act: Action, word: u64)
        ensures { (z : Ground) (c : ℕ) (p : _) (f : Found) → f.word ≡ word →
            Makes z self.old self.new (λ v. count_at z c v p act f act) }
    {
        match act {
            Action::Stores(_) => self.over = false,
            _ => {
                if word == 0 {
                    self.over = true;
                }
            }
        }
    }
}

// A store of this word makes a pause where it is that of Weak.
fn tells_pause(history: &mut History, by: u8, word: u64)
    requires word { word < 2 ^ 35 }
    requires short { IsShort history.old }
    ensures { (z : Ground) (v : View) (p : Place) (a : Action) (f : Found) →
        history.new ≡ more history.old (paused_at z by v p a f (phase_of word).code (phase_of word).epoch) }
{
    let code = word % 8;
    if code == 3 {
        let epoch = (word / 8) as u32;
        history.push(Entry {
            by: Caller(by),
            epoch,
            what: Event::Pause(epoch),
        });
    }
}
