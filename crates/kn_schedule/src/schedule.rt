ghost use Rattle.std.specs.Prelude.{◌≡◌, ◌+◌, ◌<◌, ◌≤◌, true, false, IfSome, MatchOption, drop, length, slice_index_or};
ghost use Rattle.std.specs.List.{AllByRecursion};
ghost use Rattle.kn_lines.specs.Ranges.{IsOrderWord};
ghost use Rattle.kn_schedule.specs.Asks.{AreForActors, standing_of};
ghost use Rattle.kn_schedule.specs.Schedules.{AllEnded, AllPassed, AreSpent, ComesTo, FromWords, IsAsked, IsNext, whole_order};

use crate::asking::{Asking, asking_of, no_asks};
use kn_base::Code;
use kn_lines::OrderWord;
use std::marker::Model;

/// Who takes the next turn: the actors that order words ask for, one word after another, and behind
/// them rounds, which begin at actor 0 and go round again. Actors are numbered: the threads by their
/// number, and the collector behind them. One that has ended takes no turn. Contracts see an `Order`
/// of `specs/Schedules.antt`.
#[derive(Drop)]
pub struct Schedule {
    words: Vec<OrderWord>,
    /// How many of the words were begun.
    begun: usize,
    /// The asks of the word that was begun last.
    asking: Asking,
    /// Whether no ask and no word is left.
    is_spent: bool,
    threads: u8,
    /// The actor at which the round goes on.
    next: u8,
}

impl Model for Schedule {
    ghost use Rattle.std.specs.Prelude.{◌≡◌, ◌+◌, ◌≤◌, true, drop, vec_len};
    ghost use Rattle.std.specs.List.{AllByRecursion};
    ghost use Rattle.kn_lines.specs.Ranges.{IsOrderWord};
    ghost use Rattle.kn_schedule.specs.Asks.{AreForActors, no_asks};
    ghost use Rattle.kn_schedule.specs.Schedules.{Order};

    ghost Value = { Order };

    ghost view = { λ s. record {
      threads = s.threads;
      left = record { asking = s.asking; words = drop s.begun s.words.items; next = s.next };
    } };

    ghost invariant = { λ s. (s.threads ≤ 16) × (s.begun ≤ vec_len s.words) × (s.next ≤ s.threads + 1)
        × AreForActors (s.threads + 1) s.asking × AllByRecursion (IsOrderWord s.threads) s.words.items
        × (s.is_spent ≡ true → (s.asking ≡ no_asks) × (vec_len s.words ≤ s.begun)) };
}

impl Schedule {
    /// The order of turns of so many threads and a collector, before the first turn.
    pub fn open(words: Vec<OrderWord>, threads: u8) -> Schedule
        requires threads { threads ≤ 16 }
        requires words { AllByRecursion (IsOrderWord threads) words.items }
        ensures threads { result.threads ≡ threads }
        ensures left { result.left ≡ whole_order words.items }
    {
        Schedule {
            words,
            begun: 0,
            asking: no_asks(),
            is_spent: false,
            threads,
            next: 0,
        }
    }

    /// The actor that takes the next turn, and none where all have ended. `ended` says of each actor
    /// whether it has, `answered` how many calls it has answered, and `code` is that of the phase.
    #[inline(always)]
    pub fn next_turn(&mut self, ended: &[bool], answered: &[u32], code: Code) -> Option<u8>
        requires ended { length ended.now ≡ self.old.threads + 1 }
        requires answered { length answered.now ≡ self.old.threads + 1 }
        ensures threads { self.new.threads ≡ self.old.threads }
        ensures next { MatchOption result (AllEnded (self.old.threads + 1) (λ i. slice_index_or ended.now i false))
            (λ actor. IsNext self.old.threads (standing_of ended.now answered.now code) self.old.left actor self.new.left) }
        ensures is_actor { IfSome result (λ actor. actor < self.old.threads + 1) }
        ensures runs { IfSome result (λ actor. slice_index_or ended.now actor false ≡ false) }
    {
        if !self.is_spent {
            if let Some(actor) = self.next_of_words(ended, answered, code) {
                return Some(actor);
            }
        }
        let actor = next_of_round(ended, self.next)?;
        self.next = actor + 1;
        Some(actor)
    }

    /// The actor that the words left ask for. Where they ask for none, no word is left.
    #[inline(always)]
    fn next_of_words(&mut self, ended: &[bool], answered: &[u32], code: Code) -> Option<u8>
        requires ended { length ended.now ≡ self.old.threads + 1 }
        requires answered { length answered.now ≡ self.old.threads + 1 }
        ensures threads { self.new.threads ≡ self.old.threads }
        ensures next { self.new.left.next ≡ self.old.left.next }
        ensures asked { MatchOption result
            (AreSpent self.old.threads (standing_of ended.now answered.now code) self.old.left self.new.left)
            (λ actor. IsAsked self.old.threads (standing_of ended.now answered.now code) self.old.left actor self.new.left) }
        ensures is_actor { IfSome result (λ actor. actor < self.old.threads + 1) }
        ensures runs { IfSome result (λ actor. slice_index_or ended.now actor false ≡ false) }
    {
        if let Some(actor) = self.asking.ask_next(ended, answered, code) {
            return Some(actor);
        }
        self.next_behind(ended, answered, code)
    }

    /// The same, where the next ask takes no turn.
    #[inline(never)]
    fn next_behind(&mut self, ended: &[bool], answered: &[u32], code: Code) -> Option<u8>
        requires ended { length ended.now ≡ self.old.threads + 1 }
        requires answered { length answered.now ≡ self.old.threads + 1 }
        ensures threads { self.new.threads ≡ self.old.threads }
        ensures next { self.new.left.next ≡ self.old.left.next }
        ensures asked { MatchOption result
            (AreSpent self.old.threads (standing_of ended.now answered.now code) self.old.left self.new.left)
            (λ actor. IsAsked self.old.threads (standing_of ended.now answered.now code) self.old.left actor self.new.left) }
        ensures is_actor { IfSome result (λ actor. actor < self.old.threads + 1) }
        ensures runs { IfSome result (λ actor. slice_index_or ended.now actor false ≡ false) }
    {
        if let Some(actor) = self.asking.next_asked(ended, answered, code) {
            return Some(actor);
        }
        let left = &self.words[self.begun..];
        match first_of_words(left, self.threads, ended, answered, code) {
            Some(found) => {
                self.begun += found.begun;
                self.asking = found.asking;
                Some(found.actor)
            }
            None => {
                self.begun = self.words.len();
                self.asking = no_asks();
                self.is_spent = true;
                None
            }
        }
    }
}

/// An ask that takes a turn: how many words are begun with its own, what is left of the asks of its
/// word, and its actor.
#[derive(Drop)]
struct Found {
    begun: usize,
    asking: Asking,
    actor: u8,
}

/// The first ask of words that takes a turn.
fn first_of_words(
    words: &[OrderWord],
    threads: u8,
    ended: &[bool],
    answered: &[u32],
    code: Code,
) -> Option<Found>
    requires threads { threads ≤ 16 }
    requires words { AllByRecursion (IsOrderWord threads) words.now }
    requires ended { length ended.now ≡ threads + 1 }
    requires answered { length answered.now ≡ threads + 1 }
    ensures found { MatchOption result (AllPassed threads (standing_of ended.now answered.now code) words.now)
        (λ found. FromWords threads (standing_of ended.now answered.now code) words.now found.actor found.asking (drop found.begun words.now)) }
    ensures within { IfSome result (λ found. found.begun ≤ length words.now) }
    ensures actors { IfSome result (λ found. AreForActors (threads + 1) found.asking) }
    ensures is_actor { IfSome result (λ found. found.actor < threads + 1) }
    ensures runs { IfSome result (λ found. slice_index_or ended.now found.actor false ≡ false) }
{
    for at in 0..words.len() {
        let mut asking = asking_of(threads, &words[at]);
        if let Some(actor) = asking.next_asked(ended, answered, code) {
            return Some(Found {
                begun: at + 1,
                asking,
                actor,
            });
        }
    }
    None
}

/// The first actor that has not ended, of those from `place` on and then of those before it.
#[inline(always)]
fn next_of_round(ended: &[bool], place: u8) -> Option<u8>
    requires place { place ≤ length ended.now }
    requires few { length ended.now < 256 }
    ensures comes { MatchOption result (AllEnded (length ended.now) (λ i. slice_index_or ended.now i false))
        (ComesTo (length ended.now) (λ i. slice_index_or ended.now i false) place) }
    ensures is_actor { IfSome result (λ actor. actor < length ended.now) }
    ensures runs { IfSome result (λ actor. slice_index_or ended.now actor false ≡ false) }
{
    let actors = ended.len() as u8;
    for actor in place..actors {
        if !ended[usize::from(actor)] {
            return Some(actor);
        }
    }
    for actor in 0..place {
        if !ended[usize::from(actor)] {
            return Some(actor);
        }
    }
    None
}
