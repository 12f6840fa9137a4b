ghost use Rattle.std.specs.Prelude.{◌≡◌, ◌<◌, IfOk, Some, None, cond, length, map, nat_lt, option_map};
ghost use Rattle.kn_base.specs.Pages.{FrameView};
ghost use Rattle.kn_base.specs.Sizes.{frame_count};
ghost use Rattle.kn_base.specs.declared.places.Place.TheVariants.{Frame};
ghost use Rattle.kn_graph.specs.Ground.{IsGoodGround};
ghost use Rattle.kn_rule.specs.Places.{Within};
ghost use Rattle.kn_rule.specs.Steps.{callers, does, found};
ghost use Rattle.kn_steps.specs.Made.{Allowed, Made, MayMove, Moved};
ghost use Rattle.kn_view.specs.Parts.{ground_of};
ghost use Rattle.kn_board.specs.Open.{AreWhole, opened};
ghost use Rattle.kn_board.specs.World.{MovesTo, SeatDid, SeatMoved, Sound, StepsTo, lies_at, seat_here};
ghost use Rattle.kn_board.specs.World.{seat_stand, slot_at, stand_at, word_at};

use crate::plain::Plain;
use kn_base::{Caller, FrameNo, FramePage, Home, Place, Sizes};
use kn_graph::{Call, Entry};
use kn_layout::Layout;
use kn_rule::{Action, Kind};
use kn_steps::Steps;
use std::alloc::{AllocError, Global};
use std::marker::Model;

/// A heap in plain memory, with the view of each caller and the history. Contracts see it as a
/// `World` (`specs/World.antt`).
#[derive(Drop)]
pub struct Board<P: FramePage> {
    plain: Box<Plain<P>>,
}

impl<P: FramePage> Model for Board<P> {
    ghost use Rattle.kn_board.specs.World.{World};

    ghost Value = { World };

    ghost view = { λ b. b.plain.value };
}

impl<P: FramePage> Board<P> {
    /// A board at its start, over wholly free pages in the order of the frames. An error is want of
    /// memory.
    pub fn open(
        alloc: Global,
        sizes: &Sizes,
        layouts: &[Layout],
        pages: Vec<P>,
    ) -> Result<Board<P>, AllocError>
        requires good { IsGoodGround (ground_of sizes.now layouts.now) }
        requires whole { AreWhole sizes.now (map P.page pages.items) }
        ensures { IfOk result (λ board. board ≡ opened (ground_of sizes.now layouts.now) (map P.page pages.items)) }
    {
        let plain = Plain::open(alloc, sizes, layouts, pages)?;
        let plain = Box::new(alloc, plain)?;
        Ok(Board { plain })
    }

    /// The steps of one caller.
    #[inline(always)]
    pub fn at(self, by: Caller) -> BoardSeat<P>
        requires { by.0 < callers self.heap.sizes }
        ensures by { result.by ≡ by.0 }
        ensures board { result.board ≡ self }
    {
        BoardSeat {
            by: by.0,
            board: self,
        }
    }

    /// Between any two steps the rule holds of the state that the board stands for.
    pub fn rule_holds(&self)
        ensures { Sound self.now }
    {
        self.plain.rule_holds();
    }

    /// All entries that were made, in order.
    pub fn history(&self) -> &[Entry]
        ensures { result.now ≡ self.now.history }
    {
        self.plain.history()
    }

    /// The word of a place.
    pub fn word(&self, place: Place) -> u64
        requires { Within self.now.heap.sizes place }
        ensures { result ≡ word_at self.now place }
    {
        self.plain.word(place)
    }

    /// The word of a frame, and none past the last frame.
    pub fn frame_word(&self, frame: FrameNo) -> Option<u64>
        ensures { result ≡ cond (nat_lt frame.0 (frame_count self.now.heap.sizes)) (Some (word_at self.now (Frame frame.0))) None }
    {
        if u32::from(frame.0) < self.plain.sizes.frames() {
            Some(self.word(Place::Frame(frame.0)))
        } else {
            None
        }
    }

    /// The page in the slot of a frame. There is none where the page is in its owner's hand, and past the
    /// last frame.
    pub fn page(&self, frame: FrameNo) -> Option<&P>
        ensures { option_map (λ page. P.page page.now) result ≡ slot_at self.now frame.0 }
    {
        self.plain.page(frame.0)
    }

    // One step of a caller.
    #[inline(always)]
    fn makes(&mut self, by: u8, place: Place, kind: Kind, act: Action) -> u64
        requires caller { by < callers self.old.heap.sizes }
        requires may { Allowed (stand_at by self.old) (lies_at self.old) (does kind place act) }
        ensures { (page : FrameView) × StepsTo self.old by (does kind place act) (found result page) self.new
            × Made (stand_at by self.old) (lies_at self.old) (does kind place act) (found result page) (stand_at by self.new) (lies_at self.new) }
    {
        self.plain.step(by, place, kind, act)
    }

    // The page of a frame that a caller owns goes out of its slot, or comes back.
    #[inline(always)]
    fn moves(&mut self, by: u8, frame: u16, page: Option<P>) -> Option<P>
        requires caller { by < callers self.old.heap.sizes }
        requires may { MayMove (stand_at by self.old) (lies_at self.old) frame (option_map P.page page) }
        ensures moves { MovesTo self.old frame (option_map P.page page) (option_map P.page result) self.new }
        ensures moved { Moved (stand_at by self.old) (lies_at self.old) frame (option_map P.page page) (option_map P.page result)
            (stand_at by self.new) (lies_at self.new) }
    {
        self.plain.exchange(by, frame, page)
    }
}

/// The steps of one caller over a board. Contracts see a `Seat` (`specs/World.antt`).
#[derive(Drop)]
pub struct BoardSeat<P: FramePage> {
    by: u8,
    board: Board<P>,
}

impl<P: FramePage> Model for BoardSeat<P> {
    ghost use Rattle.std.specs.Prelude.{◌<◌};
    ghost use Rattle.kn_rule.specs.Steps.{callers};
    ghost use Rattle.kn_board.specs.World.{Seat};

    ghost Value = { Seat };

    ghost view = { λ s. record { by = s.by; board = s.board } };

    ghost invariant = { λ s. s.by < callers s.board.heap.sizes };
}

impl<P: FramePage> BoardSeat<P> {
    /// The board, as the steps left it.
    #[inline(always)]
    pub fn into_board(self) -> Board<P>
        ensures { result ≡ self.board }
    {
        let BoardSeat { by: _, board } = self;
        board
    }

    // One step of the seat's caller.
    #[inline(always)]
    fn makes(&mut self, place: Place, kind: Kind, act: Action) -> u64
        requires { Allowed (seat_stand self.old) (seat_here self.old) (does kind place act) }
        ensures { (page : FrameView)
            × Made (seat_stand self.old) (seat_here self.old) (does kind place act) (found result page) (seat_stand self.new) (seat_here self.new)
            × SeatDid self.old (does kind place act) (found result page) self.new }
    {
        let by = self.by;
        self.board.makes(by, place, kind, act)
    }

    // A page of a frame that the seat's caller owns goes out of its slot, or comes back.
    #[inline(always)]
    fn moves(&mut self, frame: u16, page: Option<P>) -> Option<P>
        requires { MayMove (seat_stand self.old) (seat_here self.old) frame (option_map P.page page) }
        ensures moved { Moved (seat_stand self.old) (seat_here self.old) frame (option_map P.page page) (option_map P.page result)
            (seat_stand self.new) (seat_here self.new) }
        ensures kept { SeatMoved self.old frame (option_map P.page page) (option_map P.page result) self.new }
    {
        let by = self.by;
        self.board.moves(by, frame, page)
    }
}

impl<P: Home> Steps<P> for BoardSeat<P> {
    ghost use Rattle.kn_board.specs.World.{seat_stand, seat_here, SeatDid, SeatMoved};

    ghost stand = { seat_stand };

    ghost here = { seat_here };

    ghost did = { SeatDid };

    ghost moved = { SeatMoved };

    #[inline(always)]
    fn poll(&mut self, next: Option<Call>) -> u64 {
        self.makes(Place::Phase, Kind::K1, Action::LoadsFor(next))
    }

    #[inline(always)]
    fn load(&mut self, place: Place, kind: Kind) -> u64 {
        self.makes(place, kind, Action::Loads)
    }

    #[inline(always)]
    fn store(&mut self, place: Place, word: u64, kind: Kind) {
        self.makes(place, kind, Action::Stores(word));
    }

    #[inline(always)]
    fn swap_if(&mut self, place: Place, old: u64, new: u64, kind: Kind) -> Result<u64, u64> {
        let word = self.makes(place, kind, Action::Swaps(old, new));
        if word == old { Ok(word) } else { Err(word) }
    }

    #[inline(always)]
    fn add(&mut self, place: Place, n: u64, kind: Kind) -> u64 {
        self.makes(place, kind, Action::Adds(n))
    }

    #[inline(always)]
    fn sub(&mut self, place: Place, n: u64, kind: Kind) -> u64 {
        self.makes(place, kind, Action::Subtracts(n))
    }

    #[inline(always)]
    fn raise(&mut self, place: Place, n: u64, kind: Kind) -> u64 {
        self.makes(place, kind, Action::Raises(n))
    }

    #[inline(always)]
    fn move_page(&mut self, frame: FrameNo, page: Option<P>) -> Option<P>
        requires { MayMove (seat_stand self.old) (seat_here self.old) frame.0 (option_map P.page page) }
        ensures moved { Moved (seat_stand self.old) (seat_here self.old) frame.0 (option_map P.page page) (option_map P.page result)
            (seat_stand self.new) (seat_here self.new) }
        ensures kept { SeatMoved self.old frame.0 (option_map P.page page) (option_map P.page result) self.new }
    {
        self.moves(frame.0, page)
    }
}
