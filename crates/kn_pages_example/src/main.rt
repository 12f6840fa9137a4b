//! An embedder's example: pages of cells without the rest of the heap.
//!
//! Its code needs `kn_page` alone, which hands on the kinds of page, their lists of free spans and
//! the span; one proof names definitions of `kn_base` and `kn_ranges`, which are listed for it.
//!
//! Each of the two functions owns a page over the same numbers of words, and nobody else changes that
//! page. Between any two calls the page's free spans are the words of the frame that are in no taken
//! cell, so that each `release` is proved to give back a cell that is taken. No memory is touched but
//! that of a list of free spans.
#![tactic(auto)]

ghost use Rattle.std.specs.Prelude.{◌≡◌, OnOk, Some};

use kn_page::{FixedPage, NextFitPage, Ranges, Span};
use std::io;

const FRAME: Span = Span { start: 1, len: 16 };

fn main(rt: HostRuntime) -> io::Result<()> {
    cells_of_one_size(&rt)?;
    cells_of_any_size(&rt)
}

/// Takes cells of 4 words, releases them in another order, takes again, and takes over the free spans
/// of a sweep that kept the first cell.
fn cells_of_one_size(rt: &(impl AllocGlobal + Print)) -> io::Result<()> {
    let first = Span { start: 1, len: 4 };
    let second = Span { start: 5, len: 4 };
    let third = Span { start: 9, len: 4 };
    let mut page = FixedPage::open(rt.alloc(), FRAME, 4)?;
    show_cell(rt, page.take(), first)?;
    show_cell(rt, page.take(), second)?;
    show_cell(rt, page.take(), third)?;
    page.release(third);
    page.release(first);
    show_spans(rt, "after two releases", page.spans())?;
    show_cell(rt, page.take(), first)?;
    let rest = Span { start: 5, len: 12 };
    let swept = Ranges::open(rt.alloc(), rest, 1)?;
    page.reset(&swept);
    show_spans(rt, "after a reset", page.spans())
}

/// Takes cells of any size, each from the end of the one before on, and else from the front.
fn cells_of_any_size(rt: &(impl AllocGlobal + Print)) -> io::Result<()> {
    let first = Span { start: 1, len: 6 };
    let second = Span { start: 7, len: 6 };
    let third = Span { start: 13, len: 3 };
    let fourth = Span { start: 1, len: 5 };
    let mut page = NextFitPage::open(rt.alloc(), FRAME)?;
    show_cell(rt, page.take(6), first)?;
    show_cell(rt, page.take(6), second)?;
    page.release(first);
    show_spans(rt, "after a release", page.spans())?;
    show_cell(rt, page.take(3), third)?;
    show_cell(rt, page.take(5), fourth)?;
    show_spans(rt, "at the end", page.spans())
}

/// Prints a cell that was taken. An error of kind `InvalidData` comes only where it is not the cell
/// that is wanted.
fn show_cell(rt: &impl Print, taken: Option<Span>, wanted: Span) -> io::Result<()>
    ensures { OnOk result (taken ≡ Some wanted) }
{
    if taken != Some(wanted) {
        return Err(io::Error::from(io::ErrorKind::InvalidData));
    }
    println!(rt;
        "taken: {} words from address {} on",
        wanted.len, wanted.start
    )
}

fn show_spans(rt: &impl Print, when: &str, spans: &[Span]) -> io::Result<()> {
    println!(rt; "free {when}:")?;
    for span in spans {
        println!(rt; "  {} words from address {} on", span.len, span.start)?;
    }
    Ok(())
}
