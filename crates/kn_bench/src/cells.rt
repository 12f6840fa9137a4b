ghost use Rattle.kn_base.specs.Spans.{IsSpan};

use kn_base::Span;
use kn_ranges::{Ranges, cells_are_released, cells_are_taken};
use std::alloc::{AllocError, Global};
use std::marker::Model;

/// The words of a cell.
const CELL: u32 = 2;

/// A list of the free spans of a frame, and the cells that were taken out of it, each in a slot.
#[derive(Drop)]
pub struct Cells {
    frame: Span,
    free: Ranges,
    slots: Vec<Option<Span>>,
}

impl Model for Cells {
    ghost use Rattle.kn_bench.specs.HoldsCells.{HoldsCells};

    ghost Value = { Unit {0} };

    ghost view = { λ c. tt };

    ghost invariant = { λ c. HoldsCells c.frame c.free c.slots.items };
}

impl Cells {
    /// A frame all of whose words are free, and an empty slot for each cell in it. An error is want of
    /// memory.
    pub fn open(alloc: Global, frame: Span) -> Result<Cells, AllocError>
        requires { IsSpan frame }
    {
        let mut slots = Vec::new(alloc);
        slots.resize((frame.len / CELL) as usize, None)?;
        Ok(Cells {
            frame,
            free: Ranges::open_frame(alloc, frame)?,
            slots,
        })
    }

    /// The number of slots.
    pub fn len(&self) -> usize {
        self.slots.len()
    }

    /// The number of free spans.
    pub fn free_spans(&self) -> usize {
        self.free.spans().len()
    }

    /// Takes a cell into a slot, and answers whether there was one.
    pub fn take(&mut self, slot: usize) -> bool {
        cells_are_taken();
        let Some(cell) = self.free.take_first(CELL) else {
            return false;
        };
        if slot < self.slots.len() {
            self.slots[slot] = Some(cell);
        }
        true
    }

    /// Puts the cell of a slot back, and answers whether there was one.
    pub fn release(&mut self, slot: usize) -> bool {
        cells_are_released();
        if slot >= self.slots.len() {
            return false;
        }
        let Some(cell) = self.slots[slot] else {
            return false;
        };
        self.slots[slot] = None;
        self.free.put(cell);
        true
    }
}
