//! The pages in hand.
ghost use Rattle.std.specs.Prelude.{◌≡◌, ◌<◌, ◌≤◌, Some, None, slice_get, slice_set};
ghost use Rattle.kn_base.specs.Classes.{IsClassNumber};
ghost use Rattle.kn_base.specs.declared.classes.TheConstants.{LEAST_CELL};
ghost use Rattle.kn_page.specs.PageViews.{page_view};
ghost use Rattle.kn_rule.specs.Decoding.{PacksFrame, frame_of};
ghost use Rattle.kn_rule.specs.Requests.{class_for};
ghost use Rattle.kn_alloc.specs.declared.alloc.TheConstants.{CLASSES};
ghost use Rattle.kn_alloc.specs.declared.stage.Hand.{Hand};
ghost use Rattle.kn_alloc.specs.Cells.{AsksFor};
ghost use Rattle.kn_alloc.specs.Keeps.{AreByClass, HasHand, IsReadyFor, LooksInHand, TriesHand, claim_word, readied};

use crate::alloc::ThreadAlloc;
use crate::cells::{remade, take_cell};
use crate::stage::{Hand, Stage, stage_tried};
use kn_base::{FrameKind, FrameWord};
use kn_page::Page;
use std::mem::replace;

impl ThreadAlloc {
    // Asks the page in hand of the class for a cell, or searches where there is none.
    pub(crate) fn looks_in_hand(&mut self)
        requires classes { AreByClass self.old.hands }
        requires class { self.old.class ≡ class_for self.old.sizes self.old.words }
        requires words { LEAST_CELL ≤ self.old.words }
        ensures { LooksInHand self.old self.new }
    {
        match self.hand_if_any(self.class_asked()) {
            Some(hand) => self.tries(hand),
            None => self.goes_to(Stage::Searches),
        }
    }

    // Takes a page into the hand of the class, and asks it for a cell.
    pub(crate) fn tries(&mut self, hand: Hand)
        requires class { IsClassNumber self.old.class }
        requires asks { AsksFor (page_view hand.page).class self.old.words }
        ensures { TriesHand self.old hand self.new }
    {
        let mut hand = hand;
        let cell = take_cell(&mut hand.page, self.words);
        self.puts_in_hand(hand, stage_tried(cell));
    }

    fn puts_in_hand(&mut self, hand: Hand, stage: Stage)
        requires { IsClassNumber self.old.class }
        ensures { self.new ≡ record self.old { hands = slice_set self.old.hands self.old.class (Some hand); stage = stage } }
    {
        let class = usize::from(self.class);
        self.hands[class] = Some(hand);
        self.stage = stage;
    }

    // The page of a frame that was claimed, as a hand of the class.
    pub(crate) fn readied(&self, frame: u16, old: u64, page: Page) -> Hand
        requires packs { PacksFrame old }
        requires ready { IsReadyFor (frame_of old).kind self.now.class (page_view page) }
        ensures frame { result.frame ≡ frame }
        ensures stamp { result.stamp ≡ (claim_word self.now old).stamp }
        ensures page { page_view result.page ≡ readied (frame_of old).kind self.now.class (page_view page) }
    {
        match FrameWord::unpack(old) {
            None => unreachable!(),
            Some(word) => match word.kind {
                FrameKind::Vacant | FrameKind::Empty => Hand {
                    frame,
                    stamp: self.epoch,
                    page: remade(page, self.class),
                },
                _ => Hand {
                    frame,
                    stamp: word.stamp,
                    page,
                },
            },
        }
    }

    // Takes the page in hand of a class out of the hand.
    pub(crate) fn hand_out(&mut self, class: u16) -> Hand
        requires some { (hand : Hand) × HasHand self.old.hands class hand }
        requires class { class < CLASSES }
        ensures had { HasHand self.old.hands class result }
        ensures after { self.new ≡ record self.old { hands = slice_set self.old.hands class None } }
    {
        match self.hand_if_any(class) {
            Some(hand) => hand,
            None => unreachable!(),
        }
    }

    // Takes the page in hand of a class out of the hand, where there is one.
    fn hand_if_any(&mut self, class: u16) -> Option<Hand>
        requires { class < CLASSES }
        ensures had { slice_get self.old.hands class ≡ Some result }
        ensures after { self.new ≡ record self.old { hands = slice_set self.old.hands class None } }
    {
        replace(&mut self.hands[usize::from(class)], None)
    }
}
