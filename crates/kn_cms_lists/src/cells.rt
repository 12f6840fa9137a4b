//! The objects of the core: cell after cell, and what their fields hold.

ghost use Rattle.std.specs.Prelude.{◌≡◌, ◌↔◌, ℕ, ◌+◌, ◌^◌, ◌<◌, ◌≤◌, IfOk, IsTrue, Some, None, [], ◌∷◌};
ghost use Rattle.std.specs.Prelude.{◌++◌, length, replicate, slice_get, slice_index_or, slice_set};
ghost use Rattle.kn_cms_lists.specs.Kept.{kept_point};
ghost use Rattle.kn_layout.specs.Layouts.{cell_size};

use crate::entries::put_last;
use kn_layout::cell_size;
use std::alloc::{AllocError, Global};
use std::marker::Model;

/// What is kept of one object: the address of its first word, its layout, the number of its fields.
#[derive(Clone, Copy)]
pub struct Cell {
    pub address: u32,
    pub layout: u8,
    pub length: u32,
}

/// The objects in order of birth. Contracts see the record `KeptCells` in `specs/Kept.antt`.
#[derive(Drop)]
pub struct Cells {
    cells: Vec<Cell>,
    /// By address. Field f of an object lies f + 1 words behind its first word, and has its place one
    /// below, since no word has the address 0.
    points: Vec<Option<u32>>,
    taken: u32,
    /// For how many objects there is room.
    room: usize,
}

impl Model for Cells {
    ghost use Rattle.std.specs.Prelude.{◌≤◌, vec_capacity};
    ghost use Rattle.kn_cms_lists.specs.Kept.{KeptCells};

    ghost Value = { KeptCells };

    ghost view = { λ c. record { cells = c.cells.items; points = c.points.items; taken = c.taken; room = c.room } };

    ghost invariant = { λ c. c.room ≤ vec_capacity c.cells };
}

impl Cells {
    /// No objects, with room for so many over so many words. An error is want of memory.
    pub fn open(alloc: Global, births: usize, words: usize) -> Result<Cells, AllocError>
        requires { words ≤ 1000000 }
        ensures { IfOk result (λ cells. cells ≡ record { cells = []; points = replicate (words + 1) None; taken = 0; room = births }) }
    {
        let cells = Vec::with_capacity(alloc, births)?;
        let mut points = Vec::new(alloc);
        points.resize(words + 1, None)?;
        Ok(Cells {
            cells,
            points,
            taken: 0,
            room: births,
        })
    }

    /// What is kept of an object.
    pub fn cell(&self, n: u32) -> Option<Cell>
        ensures { result ≡ slice_get self.now.cells n }
    {
        self.cells.get(n as usize).copied()
    }

    /// What is kept of an object that was born.
    pub fn at(&self, n: u32) -> Cell
        requires { n < length self.now.cells }
        ensures { slice_get self.now.cells n ≡ Some result }
    {
        self.cells[n as usize]
    }

    /// The number of objects.
    pub fn born(&self) -> usize
        ensures { result ≡ length self.now.cells }
    {
        self.cells.len()
    }

    /// The number of words taken.
    pub fn taken(&self) -> u32
        ensures { result ≡ self.now.taken }
    {
        self.taken
    }

    /// What a field holds; nothing past the last one.
    pub fn point(&self, n: u32, field: u32) -> Option<u32>
        ensures { result ≡ kept_point self.now n field }
    {
        match self.cell(n) {
            Some(cell) if field < cell.length => held(
                &self.points,
                cell.address as usize + field as usize,
            ),
            _ => None,
        }
    }

    /// Writes a field.
    pub fn set_point(&mut self, cell: Cell, field: u32, value: Option<u32>)
        requires { cell.address + field < length self.old.points }
        ensures { self.new ≡ record self.old { points = slice_set self.old.points (cell.address + field) value } }
    {
        let place = cell.address as usize + field as usize;
        self.points[place] = value;
    }

    /// One more object, behind the others; its address.
    pub fn bear(&mut self, layout: u8, fields: u32) -> u32
        requires room { length self.old.cells < self.old.room }
        requires short { fields ≤ 60000 }
        requires words { self.old.taken + cell_size fields < 2 ^ 32 }
        ensures address { result ≡ 1 + self.old.taken }
        ensures after { self.new ≡ record self.old {
          cells = self.old.cells ++ (record { address = 1 + self.old.taken; layout = layout; length = fields }) ∷ [];
          taken = self.old.taken + cell_size fields;
        } }
    {
        let address = 1 + self.taken;
        put_last(
            &mut self.cells,
            Cell {
                address,
                layout,
                length: fields,
            },
        );
        self.taken += cell_size(fields) as u32;
        address
    }
}

/// What is held at a place; nothing past the last one.
fn held(points: &[Option<u32>], place: usize) -> Option<u32>
    ensures { result ≡ slice_index_or points.now place None }
{
    if place < points.len() {
        points[place]
    } else {
        None
    }
}
