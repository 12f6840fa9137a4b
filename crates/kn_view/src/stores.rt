//! What stores and births make of a view.
ghost use Rattle.std.specs.Prelude.{◌≡◌, ℕ, ◌<◌, ◌==◌, cond};
ghost use Rattle.kn_base.specs.declared.places.Place.TheVariants.{State, Local, Side};
ghost use Rattle.kn_graph.specs.Ground.{Ground};
ghost use Rattle.kn_rule.specs.declared.positions.Position.TheVariants.{Between, Adding};
ghost use Rattle.kn_rule.specs.declared.steps.Action.TheVariants.{Stores};
ghost use Rattle.kn_rule.specs.Steps.{Found};
ghost use Rattle.kn_rule.specs.Outcomes.{went, write_at, store_at, born_at, birth_said};
ghost use Rattle.kn_view.specs.Parts.{IsBirthLocal};
ghost use Rattle.kn_view.specs.Told.{IsShort, Makes, Says};

use crate::history::History;
use crate::known::Known;
use kn_graph::{Call, Reply};
use kn_rule::Position;

impl Known {
    /// What a store of the state makes of it.
    pub fn stores_state(&mut self, word: u64)
        ensures { (z : Ground) (c : ℕ) (f : Found) →
            Makes z self.old self.new (λ v. went z c v (State c) (Stores word) f) }
    {
        self.position = match word {
            0 => Position::Out,
            1 => Position::Entering,
            _ => Position::Ended,
        };
    }

    /// What a store of a local makes of it.
    #[inline(always)]
    pub fn writes_local(&mut self, history: &mut History, by: u8, r: u8, word: u32)
        requires local { r < 16 }
        requires short { IsShort history.old }
        ensures { (z : Ground) (f : Found) →
            Says z self.old self.new history.old history.new (λ v. write_at z by v (Local by r) (Stores word) f self.old.position) }
    {
        match self.position {
            Position::Calling(call) => {
                self.sets_local(r, word);
                self.stands(Position::Between);
                self.answers(history, by, call, Reply::Ok, 0);
            }
            Position::Writing(_, _, n) => self.stands(behind_write(n)),
            _ => self.stands(Position::Between),
        }
    }

    /// What a store of a field, or of a global, makes of it.
    pub fn stores_word(&mut self, history: &mut History, by: u8)
        requires { IsShort history.old }
        ensures { (z : Ground) (p : _) (a : _) (f : Found) →
            Says z self.old self.new history.old history.new (λ v. store_at z by v p a f self.old.position) }
    {
        match self.position {
            Position::Calling(call) => {
                self.stands(Position::Between);
                self.answers(history, by, call, Reply::Ok, 0);
            }
            _ => {}
        }
    }

    /// What a birth makes of it.
    pub fn makes_object(&mut self, history: &mut History, by: u8, address: u32)
        requires birth { IsBirthLocal self.old.position }
        requires short { IsShort history.old }
        ensures { (z : Ground) (a : _) (f : Found) →
            Says z self.old self.new history.old history.new (λ v. born_at z by v (Side address) a f self.old.position) }
    {
        match self.position {
            Position::Calling(call) => match call {
                Call::New(r, _) => self.bears(history, by, call, r, address),
                Call::NewArray(r, _, _) => self.bears(history, by, call, r, address),
                _ => {}
            },
            _ => {}
        }
    }

    // The cell that was taken is an object, for a local.
    fn bears(&mut self, history: &mut History, by: u8, call: Call, r: u8, address: u32)
        requires local { r < 16 }
        requires short { IsShort history.old }
        ensures { (z : Ground) (a : _) (f : Found) (layout : ℕ) (fields : ℕ) →
            Says z self.old self.new history.old history.new (λ v. birth_said z by v (Side address) a f call (Some (r, layout, fields))) }
    {
        self.stands(Position::Writing(r, address, 0));
        self.taken = None;
        self.sets_local(r, address);
        self.answers(history, by, call, Reply::Ok, address);
    }
}

// Where a caller stands behind the store of a local, with the words of a birth that are to be counted.
fn behind_write(n: u32) -> Position
    ensures { result ≡ cond (n == 0) Between (Adding n) }
{
    if n == 0 {
        Position::Between
    } else {
        Position::Adding(n)
    }
}
