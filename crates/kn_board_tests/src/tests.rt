mod collecting;
mod draws;
mod markings;
mod marks;
mod pairs;
mod stops;

ghost use Rattle.std.specs.Prelude.{◌≡◌, ◌<◌};
ghost use Rattle.kn_rule.specs.declared.positions.Position.TheVariants.{Out, Entering};

use kn_base::{Caller, FrameNo, FramePage, Home, Place, Sizes};
use kn_board::Board;
use kn_layout::{FieldKind, Layout};
use kn_page::{Page, open_pages};
use kn_rule::Kind;
use kn_steps::Steps;
use std::alloc::AllocError;

// Two small frames of 64 words, a large one, an extra one, and two threads.
const SIZES: Sizes = Sizes {
    small: 2,
    small_words: 64,
    large: 1,
    large_words: 96,
    extra: 1,
    extra_words: 16,
    globals: 1,
    stable: 1,
    weak: 1,
    back: 1,
    threads: 2,
    calls: [0; 16],
    births: [0; 16],
};

// A caller that is out polls, and goes in.
fn goes_in<P: Home, S: Steps<P>>(steps: &mut S, by: u8)
    requires caller { (S.stand steps.old).by ≡ by }
    requires thread { by < (S.stand steps.old).heap.sizes.threads }
    requires out { (S.stand steps.old).view.position ≡ Out }
    ensures heap { (S.stand steps.new).heap ≡ (S.stand steps.old).heap }
    ensures entering { (S.stand steps.new).view.position ≡ Entering }
{
    steps.poll(None);
    steps.store(Place::State(by), 1, Kind::K2);
}

// Whether no call was answered, and the pages of the four frames are free.
fn has_whole_pages(board: &Board<Page>) -> bool {
    for (frame, words) in [(0, 64), (1, 64), (2, 96), (3, 16)] {
        let free = match board.page(FrameNo(frame)) {
            Some(page) => page.free_words(),
            None => 0,
        };
        if free != words {
            return false;
        }
    }
    board.history().is_empty()
}

#[test]
fn a_board_opens_and_callers_go_in(rt: HostRuntime) -> Result<(), AllocError> {
    let alloc = rt.alloc();
    let layouts = [Layout::Array(FieldKind::Ref)];
    let pages = open_pages(alloc, &SIZES)?;
    let board = Board::open(alloc, &SIZES, &layouts, pages)?;
    let mut seat = board.at(Caller(1));
    goes_in(&mut seat, 1);
    let board = seat.into_board();
    let words = [
        board.word(Place::Phase),
        board.word(Place::State(0)),
        board.word(Place::State(1)),
        board.word(Place::Frame(3)),
        board.word(Place::Body(240)),
    ];
    assert!(rt; words == [0, 0, 1, 0, 0] && has_whole_pages(&board));
    Ok(())
}
