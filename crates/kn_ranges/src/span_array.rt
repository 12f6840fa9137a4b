//! Spans in order in one array, with free slots before and behind them.
//!
//! A `SpanArray` owns the array, and who holds it alone changes it: a `Ranges`, or what is stored of a
//! frame that a caller owns. The slots from
//! `first` to the array's end hold the spans; those before it are free, and so is the array's spare
//! capacity. Between any two calls the spans are no more than there is room for, and the array has
//! twice that capacity (`invariant` below).
//!
//! A span is put in or taken out by moving the fewer of those before it and those behind it. Where one
//! side has no free slot, all spans are first moved to the middle, which gives each side so many slots
//! that this is rare.
ghost use Rattle.std.specs.Prelude.{◌≡◌, ℕ, ◌+◌, ◌-◌, ◌*◌, ◌<◌, ◌≤◌, IfOk, [], ◌∷◌, drop, length, slice_set, vec_len};
ghost use Rattle.std.specs.Prelude.{vec_capacity};
ghost use Rattle.std.specs.List.{insert, remove};

use kn_base::Span;
use std::alloc::{AllocError, Global};
use std::marker::Model;

/// What a free slot holds.
const NONE: Span = Span { start: 0, len: 0 };

/// Spans in order, with room for a fixed number of them. Contracts see a record of the spans and the
/// room (`specs/FreeSpans.antt`).
#[derive(Drop)]
pub struct SpanArray {
    slots: Vec<Span>,
    first: usize,
    room: u32,
}

impl Model for SpanArray {
    ghost use Rattle.std.specs.Prelude.{◌+◌, ◌*◌, ◌≤◌, drop, vec_len, vec_capacity};
    ghost use Rattle.kn_ranges.specs.FreeSpans.{FreeSpans};

    ghost Value = { FreeSpans };

    ghost view = { λ a. record { spans = drop a.first a.slots.items; room = a.room } };

    ghost invariant = { λ a. (a.first ≤ vec_len a.slots)
        × (vec_len a.slots ≤ a.first + a.room)
        × (2 * a.room ≤ vec_capacity a.slots) };
}

impl SpanArray {
    /// An array that holds `span` alone, with room for `room` spans. An error is want of memory.
    pub fn open(alloc: Global, span: Span, room: u32) -> Result<SpanArray, AllocError>
        requires { 1 ≤ room }
        ensures { IfOk result (λ array. array ≡ record { spans = span ∷ []; room = room }) }
    {
        let mut slots = Vec::with_capacity(alloc, 2 * room as usize)?;
        slots.push(span)?;
        Ok(SpanArray {
            slots,
            first: 0,
            room,
        })
    }

    /// The spans.
    pub fn spans(&self) -> &[Span]
        ensures spans { result.now ≡ self.now.spans }
        ensures room { length self.now.spans ≤ self.now.room }
    {
        &self.slots[self.first..]
    }

    /// How many spans there is room for.
    pub fn room(&self) -> u32
        ensures { result ≡ self.now.room }
    {
        self.room
    }

    /// Puts another span in the place of one.
    pub fn set(&mut self, place: usize, span: Span)
        requires { place < length self.old.spans }
        ensures { self.new ≡ record self.old { spans = slice_set self.old.spans place span } }
    {
        let at = self.first + place;
        self.slots[at] = span;
    }

    /// Takes the span at a place out.
    pub fn remove(&mut self, place: usize)
        requires { place < length self.old.spans }
        ensures { self.new ≡ record self.old { spans = remove self.old.spans place } }
    {
        let at = self.first + place;
        if place < self.slots.len() - at {
            shift_up(&mut self.slots, self.first, place);
            self.first += 1;
        } else {
            self.slots.remove(at);
        }
    }

    /// Puts a span in at a place.
    pub fn insert(&mut self, place: usize, span: Span)
        requires place { place ≤ length self.old.spans }
        requires room { length self.old.spans < self.old.room }
        ensures { self.new ≡ record self.old { spans = insert self.old.spans place span } }
    {
        self.first = make_space(&mut self.slots, self.first, self.room);
        let at = self.first + place;
        if place < self.slots.len() - at {
            shift_down(&mut self.slots, self.first, place, span);
            self.first -= 1;
        } else if self.slots.insert(at, span).is_err() {
            unreachable!();
        }
    }

    /// Takes all spans out.
    pub fn clear(&mut self)
        ensures { self.new ≡ record self.old { spans = [] } }
    {
        self.slots.clear();
        self.first = 0;
    }

    /// Makes the spans those of a list.
    pub fn refill(&mut self, spans: &[Span])
        requires { length spans.now ≤ self.old.room }
        ensures { self.new ≡ record self.old { spans = spans.now } }
    {
        self.slots.clear();
        self.first = 0;
        if self.slots.extend_from_slice(spans).is_err() {
            unreachable!();
        }
    }
}

/// Moves the spans from `first` on, before the one at a place, up by one slot, over that one.
fn shift_up(slots: &mut [Span], first: usize, place: usize)
    requires { first + place < length slots.old }
    ensures { drop (first + 1) slots.new ≡ remove (drop first slots.old) place }
{
    slots[first..first + place + 1].rotate_right(1);
}

/// Moves the spans from `first` on, before a place, down by one slot, and puts a span in there.
fn shift_down(slots: &mut [Span], first: usize, place: usize, span: Span)
    requires free { 0 < first }
    requires place { first + place ≤ length slots.old }
    ensures { drop (first - 1) slots.new ≡ insert (drop first slots.old) place span }
{
    slots[first - 1..first + place].rotate_left(1);
    slots[first + place - 1] = span;
}

/// Moves the spans to the middle where one side has no free slot, and answers the first one's place.
fn make_space(slots: &mut Vec<Span>, first: usize, room: u32) -> usize
    requires first { first ≤ vec_len slots.old }
    requires room { vec_len slots.old < first + room }
    requires capacity { 2 * room ≤ vec_capacity slots.old }
    ensures spans { drop result slots.new.items ≡ drop first slots.old.items }
    ensures before { (0 < result) × (result ≤ vec_len slots.new) }
    ensures behind { vec_len slots.new < vec_capacity slots.new }
    ensures capacity { vec_capacity slots.old ≤ vec_capacity slots.new }
{
    if first > 0 && slots.len() < slots.capacity() {
        return first;
    }
    let count = slots.len() - first;
    let free = (count + 1).min(room as usize - count / 2);
    slots.rotate_left(first);
    if slots.resize(count + free, NONE).is_err() {
        unreachable!();
    }
    slots.rotate_right(free);
    free
}
