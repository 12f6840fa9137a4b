//! What an order word asks for.
ghost use Rattle.std.specs.Prelude.{◌≡◌, ◌↔◌, ◌+◌, ◌<◌, ◌≤◌, IsTrue, IfSome, MatchOption, false, length, slice_index_or};
ghost use Rattle.kn_lines.specs.Ranges.{IsOrderWord};
ghost use Rattle.kn_schedule.specs.Asks.{AreForActors, IsWanted, TakesTurn, asked, asking_of, no_asks, of_one, standing_of, times_of};
ghost use Rattle.kn_schedule.specs.Schedules.{ArePassed, Asks, IsFirstAsk};

use kn_base::Code;
use kn_lines::{Actor, OrderWord, Until};

/// How many turns, or rounds, an order word takes at most that waits for calls or for a phase.
pub const MOST_TURNS_WAITED: u32 = 100_000;

/// The asks of an order word, for actors by number: how many there are and how many were made, which
/// actors are asked in turn, and until when turns are wanted.
#[derive(Clone, Copy)]
pub struct Asking {
    pub times: u32,
    pub made: u32,
    pub first: u8,
    pub actors: u8,
    pub until: Until,
}

/// How often a word asks at most.
fn times_of(until: Until) -> u32
    ensures { result ≡ times_of until }
{
    match until {
        Until::Turns(times) => times,
        _ => MOST_TURNS_WAITED,
    }
}

/// So many asks for one actor.
fn of_one(actor: u8, times: u32, until: Until) -> Asking
    ensures { result ≡ of_one actor times until }
{
    Asking {
        times,
        made: 0,
        first: actor,
        actors: 1,
        until,
    }
}

/// No asks.
pub fn no_asks() -> Asking
    ensures { result ≡ no_asks }
{
    of_one(0, 0, Until::Turns(0))
}

/// The asks of an order word, with so many threads.
pub fn asking_of(threads: u8, word: &OrderWord) -> Asking
    requires threads { threads ≤ 16 }
    requires word { IsOrderWord threads word.now }
    ensures is { result ≡ asking_of threads word.now }
    ensures actors { AreForActors (threads + 1) result }
{
    match *word {
        OrderWord::Run(Actor::Thread(thread), until) => of_one(thread, times_of(until), until),
        OrderWord::Run(Actor::Collector, until) => of_one(threads, times_of(until), until),
        OrderWord::Run(Actor::Round, until) => Asking {
            times: times_of(until) * (u32::from(threads) + 1),
            made: 0,
            first: 0,
            actors: threads + 1,
            until,
        },
        _ => no_asks(),
    }
}

/// Whether turns are still wanted of an actor that has answered so many calls, in a phase.
#[inline(always)]
fn is_wanted(until: Until, answered: u32, code: Code) -> bool
    ensures { IsTrue result ↔ IsWanted until answered code }
{
    match until {
        Until::Turns(_) => true,
        Until::Calls(calls) => answered < calls,
        Until::Code(wanted) => !(code == wanted),
    }
}

impl Asking {
    /// The actor that an ask is for.
    #[inline(always)]
    fn asked(&self, ask: u32) -> u8
        requires { AreForActors 17 self.now }
        ensures { result ≡ asked self.now ask }
    {
        if self.actors == 1 {
            self.first
        } else {
            self.first + (ask % u32::from(self.actors)) as u8
        }
    }

    /// Whether an ask takes a turn.
    fn takes(&self, ask: u32, ended: &[bool], answered: &[u32], code: Code) -> bool
        requires actors { AreForActors (length ended.now) self.now }
        requires short { length ended.now ≤ 17 }
        requires same { length answered.now ≡ length ended.now }
        ensures { IsTrue result ↔ TakesTurn (standing_of ended.now answered.now code) self.now ask }
    {
        self.is_turn_of(self.asked(ask), ended, answered, code)
    }

    /// Whether an ask for this actor takes a turn.
    #[inline(always)]
    fn is_turn_of(&self, actor: u8, ended: &[bool], answered: &[u32], code: Code) -> bool
        requires is_actor { actor < length ended.now }
        requires same { length answered.now ≡ length ended.now }
        ensures { IsTrue result ↔ ((slice_index_or ended.now actor false ≡ false)
            × IsWanted self.now.until (slice_index_or answered.now actor 0) code) }
    {
        let actor = usize::from(actor);
        if ended[actor] {
            return false;
        }
        is_wanted(self.until, answered[actor], code)
    }

    /// Makes the next ask where it takes a turn, and answers its actor. Where it takes none, nothing is
    /// changed.
    #[inline(always)]
    pub fn ask_next(&mut self, ended: &[bool], answered: &[u32], code: Code) -> Option<u8>
        requires actors { AreForActors (length ended.now) self.old }
        requires short { length ended.now ≤ 17 }
        requires same { length answered.now ≡ length ended.now }
        ensures asks { MatchOption result (self.new ≡ self.old)
            (λ actor. Asks (standing_of ended.now answered.now code) self.old actor self.new) }
        ensures actors { AreForActors (length ended.now) self.new }
        ensures is_actor { IfSome result (λ actor. actor < length ended.now) }
        ensures runs { IfSome result (λ actor. slice_index_or ended.now actor false ≡ false) }
    {
        if self.made >= self.times {
            return None;
        }
        let actor = self.asked(self.made);
        if !self.is_turn_of(actor, ended, answered, code) {
            return None;
        }
        self.made += 1;
        Some(actor)
    }

    /// The first ask left that takes a turn. After a whole round of asks none can come, as nothing
    /// changes between asks.
    fn first_ask(&self, ended: &[bool], answered: &[u32], code: Code) -> Option<u32>
        requires actors { AreForActors (length ended.now) self.now }
        requires short { length ended.now ≤ 17 }
        requires same { length answered.now ≡ length ended.now }
        ensures { MatchOption result
            (ArePassed (standing_of ended.now answered.now code) self.now)
            (IsFirstAsk (standing_of ended.now answered.now code) self.now) }
    {
        let end = self
            .times
            .min(self.made.saturating_add(u32::from(self.actors)));
        for ask in self.made..end {
            if self.takes(ask, ended, answered, code) {
                return Some(ask);
            }
        }
        None
    }

    /// Makes the first ask left that takes a turn, and answers its actor.
    pub fn next_asked(&mut self, ended: &[bool], answered: &[u32], code: Code) -> Option<u8>
        requires actors { AreForActors (length ended.now) self.old }
        requires short { length ended.now ≤ 17 }
        requires same { length answered.now ≡ length ended.now }
        ensures asks { MatchOption result
            (ArePassed (standing_of ended.now answered.now code) self.old)
            (λ actor. Asks (standing_of ended.now answered.now code) self.old actor self.new) }
        ensures actors { AreForActors (length ended.now) self.new }
        ensures is_actor { IfSome result (λ actor. actor < length ended.now) }
        ensures runs { IfSome result (λ actor. slice_index_or ended.now actor false ≡ false) }
    {
        let ask = self.first_ask(ended, answered, code)?;
        self.made = ask + 1;
        Some(self.asked(ask))
    }
}
