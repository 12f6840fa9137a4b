ghost use Rattle.std.specs.Prelude.{◌≡◌, ℕ, ◌<◌, ◌≤◌, [], ◌∷◌, slice_index_or};
ghost use Rattle.kn_graph.specs.Arguments.{arguments_of};
ghost use Rattle.kn_lines.specs.Forms.{form_of, header_form_of, form_of_arguments, heap_places_of, names_places_of, one_place_of, array_places_of};
ghost use Rattle.kn_lines.specs.Forms.{wanted_at, line_form_of, open_form_of, call_form_of};

use crate::built::{FirstWord, HeaderWord};
use crate::lines::Line;
use kn_base::{
    LEAST_EXTRA_WORDS, LEAST_FRAME_WORDS, LONGEST_TEXT, MOST_FRAME_WORDS, MOST_FRAMES, MOST_NAMES,
    MOST_THREADS,
};
use kn_graph::{ANY_NUMBER, Argument, CLEANER, CallWord, ELEMENTS, FIELD, LOCAL, SMALL_NUMBER};

/// What is wanted at a place of a line.
#[derive(Clone, Copy)]
pub enum Wanted {
    /// Any word: it is not looked at.
    Untested,
    /// The word `fields` or the word `array`.
    Shape,
    /// The kind of a field.
    Kind,
    /// A word of the order.
    Scheduled,
    /// A number from a least to a greatest one.
    Number(u64, u64),
    /// An argument of a call.
    Argument(Argument),
    /// The number of a thread above the threads that have come.
    Thread,
}

/// How the lines of a first word look, and where they stand.
#[derive(Clone, Copy)]
pub struct Form {
    /// What is wanted at the first places behind the first word.
    pub places: [Wanted; 6],
    /// What is wanted at each further place.
    pub further: Wanted,
    /// The least and the greatest number of words behind the first word.
    pub least: usize,
    pub most: usize,
    /// The least stage that has to be reached, and the greatest that may be.
    pub from: u8,
    pub until: u8,
    /// Whether it stands in a block of a thread.
    pub in_block: bool,
}

/// More words than a text has.
const ANY: usize = LONGEST_TEXT as usize + 1;

const NONE: Wanted = Wanted::Untested;

/// The form of a line of this first word.
pub fn make_form(word: FirstWord, line: &Line) -> Form
    ensures { result ≡ form_of word line.now.arguments }
{
    match word {
        FirstWord::Header(header) => make_header_form(header, line),
        FirstWord::Call(call) => make_call_form(call),
    }
}

/// The form of a line of this header word.
fn make_header_form(word: HeaderWord, line: &Line) -> Form
    ensures { result ≡ header_form_of word line.now.arguments }
{
    match word {
        HeaderWord::Heap => line_form(heap_places(), 6, 0, 0),
        HeaderWord::Names => line_form(names_places(), 4, 1, 1),
        HeaderWord::Layout => {
            if line.second() == b"array".as_slice() {
                line_form(array_places(), 2, 2, 2)
            } else {
                open_form(Wanted::Shape, Wanted::Kind, 2, 2)
            }
        }
        HeaderWord::Threads => line_form(one_place(between(1, MOST_THREADS)), 1, 2, 2),
        HeaderWord::Turns => line_form(one_place(Wanted::Number(1, u64::MAX)), 1, 3, 3),
        HeaderWord::Thread => line_form(one_place(Wanted::Thread), 1, 3, 5),
        HeaderWord::Order => open_form(Wanted::Scheduled, Wanted::Scheduled, 3, 6),
    }
}

/// A number between these, both included.
fn between(least: u32, greatest: u32) -> Wanted
    ensures { result ≡ Wanted.Number least greatest }
{
    Wanted::Number(u64::from(least), u64::from(greatest))
}

fn heap_places() -> [Wanted; 6]
    ensures { result ≡ heap_places_of }
{
    [
        between(1, MOST_FRAMES),
        between(LEAST_FRAME_WORDS, MOST_FRAME_WORDS),
        between(0, MOST_FRAMES),
        between(LEAST_FRAME_WORDS, MOST_FRAME_WORDS),
        between(0, MOST_FRAMES),
        between(LEAST_EXTRA_WORDS, MOST_FRAME_WORDS),
    ]
}

fn names_places() -> [Wanted; 6]
    ensures { result ≡ names_places_of }
{
    let name = between(0, MOST_NAMES);
    [name, name, name, name, NONE, NONE]
}

fn array_places() -> [Wanted; 6]
    ensures { result ≡ array_places_of }
{
    [Wanted::Shape, Wanted::Kind, NONE, NONE, NONE, NONE]
}

fn one_place(place: Wanted) -> [Wanted; 6]
    ensures { result ≡ one_place_of place }
{
    [place, NONE, NONE, NONE, NONE, NONE]
}

/// The form of the lines of a call, by its arguments (`arguments_of`).
fn make_call_form(word: CallWord) -> Form
    ensures { result ≡ form_of_arguments (arguments_of word) }
{
    match word {
        CallWord::New => two(LOCAL, Argument::FieldsLayout),
        CallWord::NewArray => three(LOCAL, Argument::ArrayLayout, ELEMENTS),
        CallWord::Copy => two(LOCAL, LOCAL),
        CallWord::Clear => one(LOCAL),
        CallWord::Same => two(LOCAL, LOCAL),
        CallWord::Get => three(LOCAL, LOCAL, FIELD),
        CallWord::Set => three(LOCAL, FIELD, LOCAL),
        CallWord::Put => three(LOCAL, FIELD, ANY_NUMBER),
        CallWord::Read => two(LOCAL, FIELD),
        CallWord::GlobalSet => two(Argument::Global, LOCAL),
        CallWord::GlobalGet => two(LOCAL, Argument::Global),
        CallWord::Pin => two(Argument::Stable, LOCAL),
        CallWord::Unpin => one(Argument::Stable),
        CallWord::StableGet => two(LOCAL, Argument::Stable),
        CallWord::MakeWeak => two(Argument::Weak, LOCAL),
        CallWord::WeakGet => two(LOCAL, Argument::Weak),
        CallWord::MakeBack => two(Argument::Back, LOCAL),
        CallWord::Retain => one(Argument::Back),
        CallWord::Release => one(Argument::Back),
        CallWord::BackGet => two(LOCAL, Argument::Back),
        CallWord::Tie => three(LOCAL, CLEANER, SMALL_NUMBER),
        CallWord::Collect => call_form(NONE, NONE, NONE, 0),
    }
}

/// A line of a call with one argument.
fn one(first: Argument) -> Form
    ensures { result ≡ form_of_arguments (first ∷ []) }
{
    call_form(Wanted::Argument(first), NONE, NONE, 1)
}

/// A line of a call with two arguments.
fn two(first: Argument, second: Argument) -> Form
    ensures { result ≡ form_of_arguments (first ∷ second ∷ []) }
{
    call_form(Wanted::Argument(first), Wanted::Argument(second), NONE, 2)
}

/// A line of a call with three arguments.
fn three(first: Argument, second: Argument, third: Argument) -> Form
    ensures { result ≡ form_of_arguments (first ∷ second ∷ third ∷ []) }
{
    call_form(
        Wanted::Argument(first),
        Wanted::Argument(second),
        Wanted::Argument(third),
        3,
    )
}

/// A line with these words behind its first one, so many.
fn line_form(places: [Wanted; 6], count: usize, from: u8, until: u8) -> Form
    ensures { result ≡ line_form_of places count from until }
{
    Form {
        places,
        further: Wanted::Untested,
        least: count,
        most: count,
        from,
        until,
        in_block: false,
    }
}

/// A line with one word or more behind its first one.
fn open_form(first: Wanted, further: Wanted, from: u8, until: u8) -> Form
    ensures { result ≡ open_form_of first further from until }
{
    Form {
        places: [first, further, further, further, further, further],
        further,
        least: 1,
        most: ANY,
        from,
        until,
        in_block: false,
    }
}

/// A line of a call with these words behind its first one, so many.
fn call_form(first: Wanted, second: Wanted, third: Wanted, count: usize) -> Form
    ensures { result ≡ call_form_of first second third count }
{
    Form {
        places: [first, second, third, NONE, NONE, NONE],
        further: Wanted::Untested,
        least: count,
        most: count,
        from: 3,
        until: 5,
        in_block: true,
    }
}

impl Form {
    /// What is wanted at the first places behind the first word. At each further place it is
    /// `further`.
    pub fn first_places(&self) -> &[Wanted; 6]
        ensures each { (k : ℕ) (other : Wanted) → k < 6 → slice_index_or result.now k other ≡ wanted_at self.now k }
        ensures further { (k : ℕ) → 6 ≤ k → wanted_at self.now k ≡ self.now.further }
    {
        &self.places
    }
}
