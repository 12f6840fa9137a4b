use crate::{FramePage, Home, Span};

/// A frame of 16 words with no class, wholly free.
#[derive(Drop)]
pub struct Whole {
    pub free: [Span; 1],
}

impl FramePage for Whole {
    ghost use Rattle.std.specs.Prelude.{slice_index_or};
    ghost use Rattle.kn_base.specs.declared.numbers.Span.{Span};
    ghost use Rattle.kn_base.specs.Pages.{FrameView};

    ghost page = { λ p. let none : Span = record { start = 0; len = 0 } in
        let span = slice_index_or p.free 0 none in
        record { frame = span; class = 0; free = p.free; cursor = span.start } };

    fn frame(&self) -> Span {
        self.free[0]
    }

    fn class(&self) -> u16 {
        0
    }

    fn free_words(&self) -> u32 {
        self.free[0].len
    }

    fn spans(&self) -> &[Span] {
        &self.free
    }

    fn cursor(&self) -> u32 {
        self.free[0].start
    }
}

impl Home for Whole {}

pub fn free_end<P: Home>(page: &P) -> Option<u32> {
    let span = page.spans().first()?;
    span.start.checked_add(page.free_words())
}
