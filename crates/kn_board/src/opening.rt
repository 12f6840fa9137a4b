//! A board at its start.
ghost use Rattle.std.specs.Prelude.{◌≡◌, ◌<◌, ◌≤◌, IfOk, [], length, map, replicate, vec_capacity};
ghost use Rattle.kn_base.specs.Sizes.{IsGood};
ghost use Rattle.kn_base.specs.declared.limits.TheConstants.{MOST_CALLS};
ghost use Rattle.kn_graph.specs.Ground.{IsGoodGround};
ghost use Rattle.kn_rule.specs.Steps.{callers};
ghost use Rattle.kn_view.specs.Parts.{ground_of, new_part};
ghost use Rattle.kn_board.specs.Open.{AreWhole, opened};
ghost use Rattle.kn_board.specs.Stored.{AreUnowned};

use crate::plain::Plain;
use crate::spans::span_of;
use crate::starts::Starts;
use kn_base::{FramePage, Sizes};
use kn_holds::FrameHold;
use kn_layout::{Layout, copy_layouts};
use kn_rule::table_length;
use kn_view::{History, Known};
use std::alloc::{AllocError, Global};

fn zeros(alloc: Global, count: usize) -> Result<Vec<u64>, AllocError>
    ensures { IfOk result (λ words. words.items ≡ replicate count 0) }
{
    let words = vec![in alloc; 0u64; count]?;
    Ok(words)
}

// Each page in a slot of its own.
fn in_slots<P: FramePage>(alloc: Global, pages: Vec<P>) -> Result<Vec<Option<P>>, AllocError>
    ensures { IfOk result (λ slots. slots.items ≡ map (λ page. Some page) pages.items) }
{
    pages.into_iter().map(|page| Some(page)).collect(alloc)
}

// What is stored of callers that have made no step.
fn newcomers(alloc: Global, sizes: &Sizes) -> Result<Vec<Known>, AllocError>
    requires { IsGood sizes.now }
    ensures { IfOk result (λ known. known.items ≡ replicate (callers sizes.now) (new_part (ground_of sizes.now []))) }
{
    let callers = sizes.threads as usize + 2;
    let mut known = Vec::with_capacity(alloc, callers)?;
    for _ in 0..callers {
        known.push(Known::open(alloc, sizes)?)?;
    }
    Ok(known)
}

// What is stored of frames that nobody owns.
fn free_frames(alloc: Global, sizes: &Sizes) -> Result<Vec<FrameHold>, AllocError>
    requires { IsGood sizes.now }
    ensures { IfOk result (λ holds. AreUnowned sizes.now holds.items) }
{
    let mut holds = Vec::with_capacity(alloc, sizes.frames() as usize)?;
    for number in 0..sizes.frames() {
        let span = span_of(sizes, number as u16);
        holds.push(FrameHold::open(alloc, span.len)?)?;
    }
    Ok(holds)
}

impl<P: FramePage> Plain<P> {
    /// All words are 0, each page lies in its slot, and nothing was said. An error is want of memory.
    pub fn open(
        alloc: Global,
        sizes: &Sizes,
        layouts: &[Layout],
        pages: Vec<P>,
    ) -> Result<Plain<P>, AllocError>
        requires good { IsGoodGround (ground_of sizes.now layouts.now) }
        requires whole { AreWhole sizes.now (map P.page pages.items) }
        ensures { IfOk result (λ plain. plain ≡ opened (ground_of sizes.now layouts.now) (map P.page pages.items)) }
    {
        let copies = copy_layouts(alloc, layouts)?;
        let words = zeros(alloc, table_length(sizes))?;
        let slots = in_slots(alloc, pages)?;
        let known = newcomers(alloc, sizes)?;
        let holds = free_frames(alloc, sizes)?;
        let history = History::open(alloc)?;
        Ok(Plain {
            sizes: *sizes,
            starts: Starts::of(sizes),
            layouts: copies,
            words,
            slots,
            known,
            holds,
            history,
        })
    }
}
