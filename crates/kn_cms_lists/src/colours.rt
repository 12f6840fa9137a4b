//! The colours of objects, and which gray object has the least number.

ghost use Rattle.std.specs.Prelude.{◌≡◌, ◌↔◌, IsTrue, ◌≢◌, ℕ, ◌+◌, ◌<◌, ◌≤◌, ◌^◌, IfOk, IfSome, None, false};
ghost use Rattle.std.specs.Prelude.{length, replicate};
ghost use Rattle.std.specs.Prelude.{slice_index_or, slice_set};
ghost use Rattle.kn_cms_rule.specs.declared.stages.Colour.TheVariants.{Gray, White};
ghost use Rattle.kn_cms_lists.specs.Kept.{shaded_list};

use kn_cms_rule::Colour;
use std::alloc::{AllocError, Global};
use std::marker::Model;

/// The number of objects that share a flag.
const BLOCK: usize = 128;

/// A colour for each object that may be born. Contracts see the list of them.
#[derive(Drop)]
pub struct Colours {
    list: Vec<Colour>,
    /// By block of objects, whether one of them may be gray.
    flags: Vec<bool>,
}

impl Model for Colours {
    ghost use Rattle.std.specs.Prelude.{List};
    ghost use Rattle.kn_cms_rule.specs.declared.stages.Colour.{Colour};
    ghost use Rattle.kn_cms_lists.specs.Flags.{AreFlagged};

    ghost Value = { List Colour };

    ghost view = { λ c. c.list.items };

    ghost invariant = { λ c. AreFlagged c.list.items c.flags.items };
}

impl Colours {
    /// So many objects without a colour. An error is want of memory.
    pub fn open(alloc: Global, count: usize) -> Result<Colours, AllocError>
        requires { count < 2 ^ 32 }
        ensures { IfOk result (λ colours. colours ≡ replicate count White) }
    {
        let list = white_objects(alloc, count)?;
        let flags = no_flags(alloc, count / BLOCK + 1)?;
        Ok(Colours { list, flags })
    }

    /// The colour of an object.
    pub fn of(&self, n: u32) -> Colour
        ensures { result ≡ slice_index_or self.now n White }
    {
        let n = n as usize;
        if n < self.list.len() {
            self.list[n]
        } else {
            Colour::White
        }
    }

    /// Gives an object a colour.
    pub fn put(&mut self, n: u32, colour: Colour)
        requires { n < length self.old }
        ensures { self.new ≡ slice_set self.old n colour }
    {
        let n = n as usize;
        self.list[n] = colour;
        if is_gray(colour) {
            self.flags[n / BLOCK] = true;
        }
    }

    /// An object that has no colour becomes gray.
    pub fn shade(&mut self, value: Option<u32>)
        requires { IfSome value (λ n. n < length self.old) }
        ensures { self.new ≡ shaded_list self.old value }
    {
        if let Some(n) = value {
            if matches!(self.of(n), Colour::White) {
                self.put(n, Colour::Gray);
            }
        }
    }

    /// The gray object of least number; none where no object is gray. It looks at the flags, and at
    /// the objects of the blocks that have one; a block without a gray object loses its flag.
    pub fn least_gray(&mut self) -> Option<u32>
        ensures same { self.new ≡ self.old }
        ensures gray { IfSome result (λ n. slice_index_or self.old n White ≡ Gray) }
        ensures least { IfSome result (λ n. (m : ℕ) → m < n → slice_index_or self.old m White ≢ Gray) }
        ensures none { result ≡ None → (m : ℕ) → slice_index_or self.old m White ≢ Gray }
    {
        for block in 0..self.flags.len() {
            if self.flags[block] {
                match first_gray(&self.list, block * BLOCK) {
                    Some(n) => return Some(n as u32),
                    None => self.flags[block] = false,
                }
            }
        }
        None
    }
}

/// So many objects without a colour. An error is want of memory.
fn white_objects(alloc: Global, count: usize) -> Result<Vec<Colour>, AllocError>
    ensures { IfOk result (λ list. list.items ≡ replicate count White) }
{
    let mut list = Vec::new(alloc);
    list.resize(count, Colour::White)?;
    Ok(list)
}

/// So many flags that are not set. An error is want of memory.
fn no_flags(alloc: Global, count: usize) -> Result<Vec<bool>, AllocError>
    ensures { IfOk result (λ list. list.items ≡ replicate count false) }
{
    let mut list = Vec::new(alloc);
    list.resize(count, false)?;
    Ok(list)
}

/// The first gray object of the block that begins at a place.
fn first_gray(list: &[Colour], from: usize) -> Option<usize>
    requires { from < 2 ^ 33 }
    ensures gray { IfSome result (λ n. slice_index_or list.now n White ≡ Gray) }
    ensures within { IfSome result (λ n. n < length list.now) }
    ensures least { IfSome result (λ n. (m : ℕ) → from ≤ m → m < n → slice_index_or list.now m White ≢ Gray) }
    ensures none { result ≡ None → (m : ℕ) → from ≤ m → m < from + 128 → slice_index_or list.now m White ≢ Gray }
{
    for n in from..list.len().min(from + BLOCK) {
        if is_gray(list[n]) {
            return Some(n);
        }
    }
    None
}

/// Whether a colour is gray.
fn is_gray(colour: Colour) -> bool
    ensures { IsTrue result ↔ (colour ≡ Gray) }
{
    match colour {
        Colour::Gray => true,
        _ => false,
    }
}
