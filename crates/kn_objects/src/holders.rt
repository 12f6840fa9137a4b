//! What locals, globals and names hold: none, or an object's number.

ghost use Rattle.std.specs.Prelude.{◌≡◌, ℕ, ◌<◌, ◌≤◌, None, IfOk, Some, [], length, replicate, slice_index, slice_index_or, slice_set};
ghost use Rattle.kn_objects.specs.Holders.{no_holders};

use crate::marking::Roots;
use kn_base::Sizes;
use std::alloc::{AllocError, Global};
use std::marker::Model;

/// The locals of each thread, the globals, and the stable, weak and back names, the last with their
/// counts. Contracts see the record `KeptHolders` in `specs/Held.antt`.
#[derive(Drop)]
pub struct Holders {
    locals: Vec<[Option<u32>; 16]>,
    globals: Vec<Option<u32>>,
    stable: Vec<Option<u32>>,
    weak: Vec<Option<u32>>,
    back: Vec<Option<u32>>,
    counts: Vec<u16>,
}

impl Model for Holders {
    ghost use Rattle.kn_objects.specs.Holders.{KeptHolders};

    ghost Value = { KeptHolders };

    ghost view = { λ h. record {
      locals = h.locals.items;
      globals = h.globals.items;
      stable = h.stable.items;
      weak = h.weak.items;
      back = h.back.items;
      counts = h.counts.items;
    } };
}

impl Holders {
    /// As many as the sizes say, and none holds anything. An error is want of memory.
    pub fn open(alloc: Global, sizes: &Sizes) -> Result<Holders, AllocError>
        ensures { IfOk result (λ holders. holders ≡ no_holders sizes.now) }
    {
        let mut locals = Vec::new(alloc);
        locals.resize(sizes.threads as usize, [None; 16])?;
        let mut counts = Vec::new(alloc);
        counts.resize(sizes.back as usize, 0)?;
        Ok(Holders {
            locals,
            globals: nulls(alloc, sizes.globals)?,
            stable: nulls(alloc, sizes.stable)?,
            weak: nulls(alloc, sizes.weak)?,
            back: nulls(alloc, sizes.back)?,
            counts,
        })
    }

    /// What a local of a thread holds.
    pub fn local(&self, thread: u8, r: u8) -> Option<u32>
        requires { r ≤ 15 }
        ensures { result ≡ slice_index_or (slice_index_or self.now.locals thread []) r None }
    {
        if (thread as usize) < self.locals.len() {
            self.locals[thread as usize][r as usize]
        } else {
            None
        }
    }

    pub fn global(&self, i: u8) -> Option<u32>
        ensures { result ≡ slice_index_or self.now.globals i None }
    {
        held(&self.globals, i)
    }

    pub fn stable(&self, h: u8) -> Option<u32>
        ensures { result ≡ slice_index_or self.now.stable h None }
    {
        held(&self.stable, h)
    }

    pub fn weak(&self, w: u8) -> Option<u32>
        ensures { result ≡ slice_index_or self.now.weak w None }
    {
        held(&self.weak, w)
    }

    pub fn back(&self, b: u8) -> Option<u32>
        ensures { result ≡ slice_index_or self.now.back b None }
    {
        held(&self.back, b)
    }

    /// The count of a back name.
    pub fn count(&self, b: u8) -> u16
        ensures { result ≡ slice_index self.now.counts b }
    {
        if (b as usize) < self.counts.len() {
            self.counts[b as usize]
        } else {
            0
        }
    }

    /// All of them, as places where walks begin.
    pub fn roots(&self) -> Roots<'_>
        ensures locals { result.locals.now ≡ self.now.locals }
        ensures globals { result.globals.now ≡ self.now.globals }
        ensures stable { result.stable.now ≡ self.now.stable }
        ensures back { result.back.now ≡ self.now.back }
        ensures counts { result.counts.now ≡ self.now.counts }
    {
        Roots {
            locals: &self.locals,
            globals: &self.globals,
            stable: &self.stable,
            back: &self.back,
            counts: &self.counts,
        }
    }

    pub fn set_local(&mut self, thread: u8, r: u8, value: Option<u32>)
        requires thread { thread < length self.old.locals }
        requires local { r ≤ 15 }
        ensures { self.new ≡ record self.old {
          locals = slice_set self.old.locals thread (slice_set (slice_index_or self.old.locals thread []) r value);
        } }
    {
        let mut row = self.locals[thread as usize];
        row[r as usize] = value;
        self.locals[thread as usize] = row;
    }

    pub fn set_global(&mut self, i: u8, value: Option<u32>)
        requires { i < length self.old.globals }
        ensures { self.new ≡ record self.old { globals = slice_set self.old.globals i value } }
    {
        self.globals[i as usize] = value;
    }

    pub fn set_stable(&mut self, h: u8, value: Option<u32>)
        requires { h < length self.old.stable }
        ensures { self.new ≡ record self.old { stable = slice_set self.old.stable h value } }
    {
        self.stable[h as usize] = value;
    }

    pub fn set_weak(&mut self, w: u8, n: u32)
        requires { w < length self.old.weak }
        ensures { self.new ≡ record self.old { weak = slice_set self.old.weak w (Some n) } }
    {
        self.weak[w as usize] = Some(n);
    }

    /// Makes a back name, its count 0.
    pub fn set_back(&mut self, b: u8, n: u32)
        requires name { b < length self.old.back }
        requires count { b < length self.old.counts }
        ensures { self.new ≡ record self.old { back = slice_set self.old.back b (Some n); counts = slice_set self.old.counts b 0 } }
    {
        self.back[b as usize] = Some(n);
        self.counts[b as usize] = 0;
    }

    pub fn set_count(&mut self, b: u8, n: u16)
        requires { b < length self.old.counts }
        ensures { self.new ≡ record self.old { counts = slice_set self.old.counts b n } }
    {
        self.counts[b as usize] = n;
    }
}

/// What is held at a place; nothing past the last one.
fn held(places: &[Option<u32>], i: u8) -> Option<u32>
    ensures { result ≡ slice_index_or places.now i None }
{
    if (i as usize) < places.len() {
        places[i as usize]
    } else {
        None
    }
}

/// So many places that hold nothing. An error is want of memory.
fn nulls(alloc: Global, count: u32) -> Result<Vec<Option<u32>>, AllocError>
    ensures { IfOk result (λ places. places.items ≡ replicate count None) }
{
    let mut places = Vec::new(alloc);
    places.resize(count as usize, None)?;
    Ok(places)
}
