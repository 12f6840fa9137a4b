//! The best of the frames that a search has seen.
ghost use Rattle.std.specs.Prelude.{◌≡◌, ◌+◌, ◌<◌, ◌≤◌, ◌↔◌, IsTrue, length};
ghost use Rattle.kn_rule.specs.Decoding.{frame_of};
ghost use Rattle.kn_store.specs.Search.{IsOpen, IsRank, KeepsBest, rank_of};
ghost use Rattle.kn_store.specs.declared.finder.Seen.{Seen};

use crate::finder::Seen;
use kn_rule::is_usable;

const KIND: u64 = 1 << 56;

/// The rank of a frame that may not be claimed.
pub(crate) const NOT_OPEN: u8 = 4;

/// The best of the frames seen, the first one of its kind: its number, and its rank, 0 for the best.
/// The rank is `NOT_OPEN` where none may be claimed.
#[derive(Clone, Copy)]
pub(crate) struct Best {
    pub(crate) number: usize,
    pub(crate) rank: u8,
}

impl Best {
    /// The best of no frames.
    pub(crate) fn none() -> Best
        ensures { result ≡ record { number = 0; rank = 4 } }
    {
        Best {
            number: 0,
            rank: NOT_OPEN,
        }
    }

    /// One frame more was seen, with its rank.
    #[inline(always)]
    pub(crate) fn sees(&mut self, number: usize, rank: u8)
        ensures better { rank < self.old.rank → self.new ≡ record { number = number; rank = rank } }
        ensures same { self.old.rank ≤ rank → self.new ≡ self.old }
    {
        if rank < self.rank {
            self.number = number;
            self.rank = rank;
        }
    }
}

// The best of some frames.
pub(crate) fn best_of(class: u16, seen: &[Seen]) -> Best
    ensures { KeepsBest class seen.now (length seen.now) result.number result.rank }
{
    let mut best = Best::none();
    for number in 0..seen.len() {
        best.sees(number, rank_for(class, seen[number]));
    }
    best
}

// The rank of a frame for a class.
#[inline(always)]
pub(crate) fn rank_for(class: u16, seen: Seen) -> u8
    ensures { IsRank class seen result }
{
    if is_open(class, seen) {
        rank_told(seen.word)
    } else {
        NOT_OPEN
    }
}

#[inline(always)]
fn is_open(class: u16, seen: Seen) -> bool
    ensures { IsTrue result ↔ IsOpen class seen }
{
    is_usable(class, seen.word) && !seen.refused
}

// The rank of a word's kind.
#[inline(always)]
fn rank_told(word: u64) -> u8
    ensures { result ≡ rank_of (frame_of word).kind }
{
    let kind = word / KIND;
    if kind == 0 {
        3
    } else if kind == 1 {
        2
    } else if kind == 4 {
        1
    } else if kind == 2 {
        0
    } else {
        NOT_OPEN
    }
}
