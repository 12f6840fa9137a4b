ghost use Rattle.std.specs.Prelude.{◌≡◌, ◌^◌, ◌<◌};
ghost use Rattle.kn_base.specs.Classes.{IsClassNumber};
ghost use Rattle.kn_base.specs.Words.{IsFrameWord};
ghost use Rattle.kn_base.specs.declared.kinds.FrameKind.TheVariants.{Owned};
ghost use Rattle.kn_page.specs.PageViews.{page_view};
ghost use Rattle.kn_rule.specs.Requests.{home_word as home_word_of};
ghost use Rattle.kn_alloc.specs.Turns;
ghost use Rattle.kn_alloc.specs.Keeps.{IsLookRight, class_at, home_number};

use kn_base::{Colour, FrameKind, FramePage, FrameWord, MarkWord, Span};
use kn_page::Page;
use kn_store::Look;

/// What a call asks for: a cell for an object of a layout, with so many fields and so many words.
#[derive(Clone, Copy)]
pub enum Request {
    Cell {
        layout: u16,
        length: u32,
        words: u32,
    },
}

/// What a turn of a request came to: something was done; the object was born at an address; or no
/// cell is to be had.
#[derive(Clone, Copy)]
pub enum AllocTurn {
    Moved,
    Born(u32),
    Full,
}

/// What a turn in which pages go home came to: something was done, or the caller owns no frame.
#[derive(Clone, Copy)]
pub enum HomeTurn {
    Moved,
    Done,
}

/// A page in hand: its frame, the stamp of the frame's word, and the page.
#[derive(Drop)]
pub struct Hand {
    pub frame: u16,
    pub stamp: u32,
    pub page: Page,
}

impl Hand {
    /// The word with which the page's frame is given back.
    pub fn home_word(&self) -> u64
        requires { IsClassNumber (page_view self.now.page).class }
        ensures { result ≡ home_number self.now }
    {
        let word = given_back(self.page.home_kind(), self.page.class(), self.stamp);
        word.pack()
    }
}

// The word of a frame that is given back as a frame of this kind, with a page of this class.
fn given_back(kind: FrameKind, class: u16, stamp: u32) -> FrameWord
    ensures word { result ≡ record { kind = kind; class = class_at kind class; stamp = stamp; seat = 0 } }
    ensures stamp { stamp < 2 ^ 32 }
{
    FrameWord {
        kind,
        class: class_at_home(kind, class),
        stamp,
        seat: 0,
    }
}

// The class of a frame that is given back: none where its page is wholly free.
fn class_at_home(kind: FrameKind, class: u16) -> u16
    ensures { result ≡ class_at kind class }
{
    match kind {
        FrameKind::Empty => 0,
        _ => class,
    }
}

/// What is done next.
#[derive(Clone, Copy)]
pub enum Stage {
    /// No request is under way.
    Resting,
    /// The request is longer than a frame of its area, or the area has no frame.
    TooLong,
    /// The page in hand of the class has no cell for the request, and goes back to its slot.
    Returns,
    /// The page had no cell for the request and is back in its slot; its frame is given back, and refused
    /// in the search: the frame, the word with which it is given back.
    Refuses(u16, u64),
    /// A frame is searched for.
    Searches,
    /// A frame was claimed, and its page comes out of its slot: the frame, its word before.
    Takes(u16, u64),
    /// An unswept frame was claimed.
    Sweeps(u16),
    /// The cell is to be cleared: the cell, how many of its words are.
    Clears(Span, u32),
    /// The cell is cleared, and is to be born.
    Bears(Span),
    /// The page of a frame went home: the frame, the word with which it is given back.
    PutsHome(u16, u64),
}

// The mark with which an object is born.
pub(crate) fn born_mark(epoch: u32) -> u64
    ensures { result ≡ Rattle.kn_alloc.specs.Keeps.born_mark epoch }
{
    let mark = MarkWord {
        epoch,
        colour: Colour::Black,
    };
    mark.pack()
}

// The stage behind a page that was asked for a cell.
pub(crate) fn stage_tried(cell: Option<Span>) -> Stage
    ensures { result ≡ Rattle.kn_alloc.specs.Keeps.stage_tried cell }
{
    match cell {
        Some(cell) => Stage::Clears(cell, 0),
        None => Stage::Returns,
    }
}

// The stage behind a turn of the search.
#[inline(always)]
pub(crate) fn stage_behind(look: Look) -> Stage
    requires { IsLookRight look }
    ensures { result ≡ Rattle.kn_alloc.specs.Keeps.stage_behind look }
{
    match look {
        Look::Looking => Stage::Searches,
        Look::Full => Stage::Resting,
        Look::Found(frame, old) => match FrameWord::unpack(old) {
            None => unreachable!(),
            Some(word) => match word.kind {
                FrameKind::Unswept => Stage::Sweeps(frame.0),
                _ => Stage::Takes(frame.0, old),
            },
        },
    }
}

#[inline(always)]
pub(crate) fn answer_of(look: Look) -> AllocTurn
    ensures { result ≡ Turns.answer_of look }
{
    match look {
        Look::Full => AllocTurn::Full,
        Look::Looking | Look::Found(_, _) => AllocTurn::Moved,
    }
}
