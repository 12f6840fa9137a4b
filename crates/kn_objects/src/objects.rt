//! The objects of a graph in order of birth. No object is ever taken away. Who has which word of
//! the heap is kept beside them, so that a birth and an address are looked up in one step.

ghost use Rattle.std.specs.Prelude.{◌≡◌, ◌↔◌, ℕ, ◌+◌, ◌^◌, ◌<◌, ◌≤◌, ◌⊎◌, Bool, true, false, Some, None, IfOk, IfSome};
ghost use Rattle.std.specs.Prelude.{OnOk, OnErr, IsTrue, ◌&&◌, ◌||◌, not, nat_lt, [], ◌∷◌, ◌++◌, replicate, length, vec_len, vec_capacity};
ghost use Rattle.std.specs.Prelude.{slice_get, slice_index_or};
ghost use Rattle.std.specs.Option.{option_map};
ghost use Rattle.kn_base.specs.Spans.{end_of};
ghost use Rattle.kn_base.specs.Functions.{upd};
ghost use Rattle.kn_layout.specs.Layouts.{cell_size};
ghost use Rattle.kn_graph.specs.Graph.{Lives, newborn, words_of};
ghost use Rattle.kn_objects.specs.Kept.{AreClear, Gives, HaveNoOwner, condemned_unless, field_place, nth_object, nth_shape};

use kn_layout::cell_size;
use std::alloc::{AllocError, Global};
use std::marker::Model;

/// What a graph keeps of one object. Its fields stand in two lists beside the objects, one for
/// references and one for numbers, from the place `first` on.
#[derive(Clone, Copy)]
pub struct KeptObject {
    pub address: u32,
    pub layout: u8,
    /// The number of its fields or elements.
    pub length: u32,
    pub first: usize,
    /// A cleaner and a number for it.
    pub tie: Option<(u8, u32)>,
    pub condemned: bool,
    pub released: bool,
    pub queued: bool,
    /// How many pauses came before it was finalized.
    pub finalized: Option<u32>,
}

/// The objects, their fields, and the owners of words. Contracts see the record `KeptObjects` in
/// `specs/Kept.antt`; between any two steps `AreKept` there holds.
#[derive(Drop)]
pub struct Objects {
    kept: Vec<KeptObject>,
    points: Vec<Option<u32>>,
    numbers: Vec<u64>,
    /// By address, the object that is not released and has this word.
    owners: Vec<Option<u32>>,
}

impl Model for Objects {
    ghost use Rattle.std.specs.Prelude.{length};
    ghost use Rattle.kn_objects.specs.Kept.{AreKept, KeptObjects};

    ghost Value = { KeptObjects };

    ghost view = { λ o. record { kept = o.kept.items; points = o.points.items; numbers = o.numbers.items; words = length o.owners.items } };

    ghost invariant = { λ o. AreKept o.kept.items (length o.points.items) (length o.numbers.items) o.owners.items };
}

impl Objects {
    /// No object, over a heap whose words have the addresses below `words`. An error is want of
    /// memory.
    pub fn open(alloc: Global, words: u32) -> Result<Objects, AllocError>
        ensures { IfOk result (λ objects. objects ≡ record { kept = []; points = []; numbers = []; words = words }) }
    {
        let mut owners = Vec::new(alloc);
        owners.resize(words as usize, None)?;
        Ok(Objects {
            kept: Vec::new(alloc),
            points: Vec::new(alloc),
            numbers: Vec::new(alloc),
            owners,
        })
    }

    /// The number of objects born.
    pub fn born(&self) -> u32
        ensures { result ≡ length self.now.kept }
    {
        self.kept.len() as u32
    }

    /// What is kept of an object.
    pub fn object(&self, n: u32) -> Option<KeptObject>
        ensures { result ≡ slice_get self.now.kept n }
    {
        self.kept.get(n as usize).copied()
    }

    /// What is kept of all objects.
    pub fn all(&self) -> &[KeptObject]
        ensures { result.now ≡ self.now.kept }
    {
        &self.kept
    }

    /// What the fields of all objects hold as references.
    pub fn all_points(&self) -> &[Option<u32>]
        ensures { result.now ≡ self.now.points }
    {
        &self.points
    }

    /// The place of a field in the lists of fields, where the object has that field.
    fn place(&self, n: u32, field: u32) -> Option<usize>
        ensures is { result ≡ field_place (slice_get self.now.kept n) field }
        ensures within { IfSome result (λ place. place < length self.now.points) }
        ensures both { length self.now.numbers ≡ length self.now.points }
    {
        // What holds of the objects is known where a part of them is used.
        let _ = &self.kept;
        match self.object(n) {
            Some(object) if field < object.length => Some(object.first + field as usize),
            _ => None,
        }
    }

    /// What a field holds as a reference.
    pub fn points(&self, n: u32, field: u32) -> Option<u32>
        ensures { result ≡ (nth_object self.now n).points field }
    {
        match self.place(n, field) {
            Some(place) => self.points[place],
            None => None,
        }
    }

    /// What a field holds as a number.
    pub fn number(&self, n: u32, field: u32) -> u64
        ensures { result ≡ (nth_object self.now n).number field }
    {
        match self.place(n, field) {
            Some(place) => self.numbers[place],
            None => 0,
        }
    }

    /// Writes a reference into a field.
    pub fn set_points(&mut self, n: u32, field: u32, value: Option<u32>)
        requires { field < (nth_object self.old n).length }
        ensures after { nth_object self.new ≡ upd (nth_object self.old) n
            (record (nth_object self.old n) { points = upd (nth_object self.old n).points field value }) }
        ensures kept { self.new.kept ≡ self.old.kept }
        ensures words { self.new.words ≡ self.old.words }
    {
        let place = self.kept[n as usize].first + field as usize;
        self.points[place] = value;
    }

    /// Writes a number into a field.
    pub fn set_number(&mut self, n: u32, field: u32, value: u64)
        requires { field < (nth_object self.old n).length }
        ensures after { nth_object self.new ≡ upd (nth_object self.old) n
            (record (nth_object self.old n) { number = upd (nth_object self.old n).number field value }) }
        ensures kept { self.new.kept ≡ self.old.kept }
        ensures words { self.new.words ≡ self.old.words }
    {
        let place = self.kept[n as usize].first + field as usize;
        self.numbers[place] = value;
    }

    /// Ties an object to a cleaner and a number.
    pub fn tie(&mut self, n: u32, cleaner: u8, number: u32)
        requires { n < length self.old.kept }
        ensures after { nth_object self.new ≡ upd (nth_object self.old) n (record (nth_object self.old n) { tie = Some (cleaner, number) }) }
        ensures born { length self.new.kept ≡ length self.old.kept }
        ensures words { self.new.words ≡ self.old.words }
    {
        let mut object = self.kept[n as usize];
        object.tie = Some((cleaner, number));
        self.kept[n as usize] = object;
    }

    /// Marks an object as queued.
    pub fn queue(&mut self, n: u32)
        requires { n < length self.old.kept }
        ensures after { nth_object self.new ≡ upd (nth_object self.old) n (record (nth_object self.old n) { queued = true }) }
        ensures born { length self.new.kept ≡ length self.old.kept }
        ensures words { self.new.words ≡ self.old.words }
    {
        let mut object = self.kept[n as usize];
        object.queued = true;
        self.kept[n as usize] = object;
    }

    /// Marks an object as finalized after so many pauses.
    pub fn finalize(&mut self, n: u32, pauses: u32)
        requires { n < length self.old.kept }
        ensures after { nth_object self.new ≡ upd (nth_object self.old) n (record (nth_object self.old n) { finalized = Some pauses }) }
        ensures born { length self.new.kept ≡ length self.old.kept }
        ensures words { self.new.words ≡ self.old.words }
    {
        let mut object = self.kept[n as usize];
        object.finalized = Some(pauses);
        self.kept[n as usize] = object;
    }

    /// The object that is not released and begins at an address.
    pub fn find(&self, address: u32) -> Option<u32>
        ensures is { IfSome result (λ n. Lives (length self.now.kept) (nth_shape self.now) n × ((nth_object self.now n).address ≡ address)) }
        ensures only { (n : ℕ) → Lives (length self.now.kept) (nth_shape self.now) n → (nth_object self.now n).address ≡ address → result ≡ Some n }
    {
        match owner_of(&self.owners, address) {
            Some(n) if self.kept[n as usize].address == address => Some(n),
            _ => None,
        }
    }

    /// Whether no object that is not released has any of the words from `start` up to `stop`.
    pub fn is_free(&self, start: u32, stop: u32) -> bool
        requires some { start < stop }
        requires within { stop ≤ self.now.words }
        ensures { IsTrue result ↔ AreClear self.now start stop }
    {
        are_free(&self.owners, start as usize, stop as usize)
    }

    /// Releases an object.
    pub fn release(&mut self, n: u32)
        requires { Lives (length self.old.kept) (nth_shape self.old) n }
        ensures after { nth_object self.new ≡ upd (nth_object self.old) n (record (nth_object self.old n) { released = true }) }
        ensures born { length self.new.kept ≡ length self.old.kept }
        ensures words { self.new.words ≡ self.old.words }
    {
        let mut object = self.kept[n as usize];
        let start = object.address as usize;
        let stop = start + cell_size(object.length) as usize;
        give(&mut self.owners, start, stop, None);
        object.released = true;
        self.kept[n as usize] = object;
    }

    /// One more object, over words that no object has that is not released. An error is want of
    /// memory.
    pub fn bear(&mut self, address: u32, layout: u8, fields: u32) -> Result<(), AllocError>
        requires few { length self.old.kept + 1 < 2 ^ 32 }
        requires within { address + cell_size fields ≤ self.old.words }
        requires free { AreClear self.old address (address + cell_size fields) }
        ensures after { OnOk result (nth_object self.new ≡ upd (nth_object self.old) (length self.old.kept) (newborn address layout fields)) }
        ensures born { OnOk result (length self.new.kept ≡ length self.old.kept + 1) }
        ensures words { OnOk result (self.new.words ≡ self.old.words) }
        ensures err { OnErr result (self.new ≡ self.old) }
    {
        let first = self.points.len();
        self.kept.reserve(1)?;
        self.points.reserve(fields as usize)?;
        self.numbers.reserve(fields as usize)?;
        let owner = Some(self.kept.len() as u32);
        let start = address as usize;
        let stop = start + cell_size(fields) as usize;
        give(&mut self.owners, start, stop, owner);
        put_last(&mut self.kept, new_object(address, layout, fields, first));
        add_points(&mut self.points, fields as usize);
        add_numbers(&mut self.numbers, fields as usize);
        Ok(())
    }

    /// Condemns the objects without a mark.
    pub fn condemn(&mut self, marks: &[bool])
        requires { length marks.now ≡ length self.old.kept }
        ensures after { nth_object self.new ≡ (λ n. record (nth_object self.old n) {
          condemned = (nth_object self.old n).condemned || (nat_lt n (length self.old.kept) && not (slice_index_or marks.now n false));
        }) }
        ensures born { length self.new.kept ≡ length self.old.kept }
        ensures words { self.new.words ≡ self.old.words }
    {
        condemn_unmarked(&mut self.kept, marks);
    }
}

/// What is kept of an object as it is born.
fn new_object(address: u32, layout: u8, length: u32, first: usize) -> KeptObject
    ensures { result ≡ record {
      address = address;
      layout = layout;
      length = length;
      first = first;
      tie = None;
      condemned = false;
      released = false;
      queued = false;
      finalized = None;
    } }
{
    KeptObject {
        address,
        layout,
        length,
        first,
        tie: None,
        condemned: false,
        released: false,
        queued: false,
        finalized: None,
    }
}

/// Puts an object behind the others.
fn put_last(kept: &mut Vec<KeptObject>, object: KeptObject)
    requires { vec_len kept.old < vec_capacity kept.old }
    ensures { kept.new.items ≡ kept.old.items ++ object ∷ [] }
{
    if kept.push(object).is_err() {
        unreachable!();
    }
}

/// Puts so many fields without a reference behind the others.
fn add_points(points: &mut Vec<Option<u32>>, fields: usize)
    requires { vec_len points.old + fields ≤ vec_capacity points.old }
    ensures { points.new.items ≡ points.old.items ++ replicate fields None }
{
    let behind = points.len() + fields;
    if points.resize(behind, None).is_err() {
        unreachable!();
    }
}

/// Puts so many fields with the number 0 behind the others.
fn add_numbers(numbers: &mut Vec<u64>, fields: usize)
    requires { vec_len numbers.old + fields ≤ vec_capacity numbers.old }
    ensures { numbers.new.items ≡ numbers.old.items ++ replicate fields 0 }
{
    let behind = numbers.len() + fields;
    if numbers.resize(behind, 0).is_err() {
        unreachable!();
    }
}

/// Condemns the objects without a mark.
fn condemn_unmarked(kept: &mut Vec<KeptObject>, marks: &[bool])
    requires { length marks.now ≡ vec_len kept.old }
    ensures each { (n : ℕ) → slice_get kept.new.items n
        ≡ option_map (condemned_unless (slice_index_or marks.now n false)) (slice_get kept.old.items n) }
    ensures len { vec_len kept.new ≡ vec_len kept.old }
{
    for (n, mark) in marks.iter().enumerate() {
        if !*mark {
            kept[n].condemned = true;
        }
    }
}

/// The owner of a word.
fn owner_of(owners: &[Option<u32>], word: u32) -> Option<u32>
    ensures { result ≡ slice_index_or owners.now word None }
{
    let word = word as usize;
    if word < owners.len() {
        owners[word]
    } else {
        None
    }
}

/// Whether the words from `start` up to `stop` have no owner.
fn are_free(owners: &[Option<u32>], start: usize, stop: usize) -> bool
    requires { stop ≤ length owners.now }
    ensures { IsTrue result ↔ HaveNoOwner owners.now start stop }
{
    for word in start..stop {
        if owners[word].is_some() {
            return false;
        }
    }
    true
}

/// Gives the words from `start` up to `stop` an owner, or none.
fn give(owners: &mut Vec<Option<u32>>, start: usize, stop: usize, owner: Option<u32>)
    requires order { start ≤ stop }
    requires within { stop ≤ vec_len owners.old }
    ensures after { Gives start stop owner owners.old.items owners.new.items }
    ensures len { vec_len owners.new ≡ vec_len owners.old }
{
    for word in start..stop {
        owners[word] = owner;
    }
}
