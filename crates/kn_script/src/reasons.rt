ghost use Rattle.std.specs.Prelude.{◌≡◌, ◌^◌, ◌<◌, Some, None, [], length, slice_set, bytes_eq, ◌||◌, codes, MatchResult};
ghost use Rattle.kn_lines.specs.Numbers.{number_of, value_of};
ghost use Rattle.kn_lines.specs.Built.{first_word_of};
ghost use Rattle.kn_lines.specs.Forms.{form_of};
ghost use Rattle.kn_lines.specs.Values.{kind_of, values_of};
ghost use Rattle.kn_script.specs.Reasons.{is_word, when, earlier, first_of, of_word, reason_at, number_reason, reasons_of, reasons, IsFirst};
ghost use Rattle.kn_script.specs.Readings.{IsReading, IsBegun, IsFurther};
ghost use Rattle.kn_script.specs.Good.{IsGoodProgress};

use crate::faults::Why;
use crate::progress::Progress;
use kn_lines::{
    FirstWord, Form, Line, Wanted, Words, is_outside, make_form, read_first_word, read_kind,
    read_number, read_order,
};

/// What is read of a line that meets no reason: its first word, and the numbers that the words at
/// the first places spell, 0 where there is none.
#[derive(Clone, Copy)]
pub struct Accepted {
    pub word: FirstWord,
    pub values: [u64; 6],
}

/// What the words behind a first word meet and spell, and their number.
#[derive(Clone, Copy)]
pub struct Reading {
    pub found: Option<Why>,
    pub values: [u64; 6],
    pub count: usize,
}

/// What words meet, and how many were looked at.
#[derive(Clone, Copy)]
pub struct Further {
    pub found: Option<Why>,
    pub count: usize,
}

/// What is read of a line that meets no reason, or the first reason that it meets.
pub fn judge(progress: &Progress, line: &Line) -> Result<Accepted, Why>
    requires { IsGoodProgress progress.now }
    ensures { MatchResult result
        (λ read. (first_word_of progress.now.built line.now.name ≡ Some read.word) × (read.values ≡ values_of line.now.arguments)
        × (reasons progress.now line.now ≡ []))
        (λ why. IsFirst progress.now line.now why) }
{
    let Some(word) = read_first_word(progress.built(), line.name()) else {
        return Err(Why::Word);
    };
    if line.is_odd() {
        return Err(Why::Word);
    }
    let form = make_form(word, line);
    let read = read_words(progress, &form, line.arguments());
    match first_reason(progress, word, line, &form, &read) {
        Some(why) => Err(why),
        None => Ok(Accepted {
            word,
            values: read.values,
        }),
    }
}

/// The first reason of a line whose first word is known, from what its words meet and spell.
fn first_reason(
    progress: &Progress,
    word: FirstWord,
    line: &Line,
    form: &Form,
    read: &Reading,
) -> Option<Why>
    requires form { form.now ≡ form_of word line.now.arguments }
    requires read { IsReading progress.now form.now line.now.arguments read.now }
    ensures { result ≡ first_of (reasons_of progress.now word line.now.arguments) }
{
    if is_word(read.found) {
        return Some(Why::Word);
    }
    let late = earlier(when(progress.is_late(form), Why::Late), read.found);
    let early = earlier(when(progress.is_early(form), Why::Order), late);
    let counted = earlier(
        when(
            is_outside(form.least as u64, form.most as u64, read.count as u64),
            Why::Count,
        ),
        early,
    );
    earlier(
        when(
            progress.is_too_much(word, line, read.values, read.count),
            Why::Range,
        ),
        counted,
    )
}

/// What words meet and spell. The words are gone through once.
fn read_words(progress: &Progress, form: &Form, words: Words) -> Reading
    requires good { IsGoodProgress progress.now }
    requires few { length words < 2 ^ 64 }
    ensures { IsReading progress.now form.now words.entry result }
{
    let mut words = words;
    let first = read_first(progress, form, &mut words);
    let further = look_further(progress, form.further, words);
    let values = first.values;
    Reading {
        found: earlier(first.found, further.found),
        values,
        count: first.count + further.count,
    }
}

/// What the words at the first places meet and spell, which are then passed.
fn read_first(progress: &Progress, form: &Form, words: &mut Words) -> Reading
    requires { IsGoodProgress progress.now }
    ensures { IsBegun progress.now form.now words.old words.new result }
{
    let mut found = None;
    let mut values = [0; 6];
    let places = form.first_places();
    for place in 0..6 {
        let Some(word) = words.next_word() else {
            return Reading {
                found,
                values,
                count: place,
            };
        };
        found = earlier(
            found,
            look_at(progress, places[place], place, word, &mut values),
        );
    }
    Reading {
        found,
        values,
        count: 6,
    }
}

/// The first reason that a word meets at what is wanted at its place. What the word spells is kept
/// among the values, 0 where it is no number.
fn look_at(
    progress: &Progress,
    want: Wanted,
    place: usize,
    word: &[u8],
    values: &mut [u64; 6],
) -> Option<Why>
    requires good { IsGoodProgress progress.now }
    requires place { place < 6 }
    ensures reason { result ≡ reason_at progress.now want word.now }
    ensures values { values.new ≡ slice_set values.old place (value_of word.now) }
{
    let number = read_number(word);
    values[place] = number.unwrap_or(0);
    reason_at(progress, want, word, number)
}

/// The first reason that words meet, each at what is wanted there. Behind the reason `Word` nothing
/// more is looked at.
fn look_further(progress: &Progress, want: Wanted, words: Words) -> Further
    requires good { IsGoodProgress progress.now }
    requires few { length words < 2 ^ 64 }
    ensures { IsFurther progress.now want words.entry result }
{
    let mut words = words;
    let mut found = None;
    let mut count = 0;
    while let Some(word) = words.next_word() {
        found = earlier(found, further_reason(progress, &want, word));
        count += 1;
        if is_word(found) {
            break;
        }
    }
    Further { found, count }
}

/// The first reason that a word meets at what is wanted at its place. A number is read only where one
/// is wanted.
fn further_reason(progress: &Progress, want: &Wanted, word: &[u8]) -> Option<Why>
    requires { IsGoodProgress progress.now }
    ensures { result ≡ reason_at progress.now want.now word.now }
{
    match *want {
        Wanted::Untested => None,
        Wanted::Kind => kind_reason(word),
        Wanted::Scheduled => scheduled_reason(progress, word),
        other => reason_at(progress, other, word, read_number(word)),
    }
}

/// The first reason that a word, which spells this number or none, meets at what is wanted at its
/// place.
fn reason_at(progress: &Progress, want: Wanted, word: &[u8], number: Option<u64>) -> Option<Why>
    requires good { IsGoodProgress progress.now }
    requires number { number ≡ number_of word.now }
    ensures { result ≡ reason_at progress.now want word.now }
{
    match want {
        Wanted::Untested => None,
        Wanted::Shape => when(!is_shape(word), Why::Word),
        Wanted::Kind => kind_reason(word),
        Wanted::Scheduled => scheduled_reason(progress, word),
        _ => match number {
            Some(number) => number_reason(progress, want, number),
            None => Some(Why::Number),
        },
    }
}

/// The reason that a word meets which is no kind.
fn kind_reason(word: &[u8]) -> Option<Why>
    ensures { result ≡ of_word (λ _. None) (kind_of word.now) }
{
    match read_kind(word) {
        Some(_) => None,
        None => Some(Why::Word),
    }
}

/// The first reason that a word of the order meets.
#[inline(always)]
fn scheduled_reason(progress: &Progress, word: &[u8]) -> Option<Why>
    requires { IsGoodProgress progress.now }
    ensures { result ≡ reason_at progress.now Wanted.Scheduled word.now }
{
    match read_order(progress.built(), word) {
        Some(order) => when(progress.is_order_outside(order), Why::Range),
        None => Some(Why::Word),
    }
}

/// Whether a word is `fields` or `array`.
fn is_shape(word: &[u8]) -> bool
    ensures { result ≡ (bytes_eq word.now (codes "fields") || bytes_eq word.now (codes "array")) }
{
    word == b"fields".as_slice() || word == b"array".as_slice()
}

/// The first reason that a number meets at its place.
fn number_reason(progress: &Progress, want: Wanted, number: u64) -> Option<Why>
    ensures { result ≡ number_reason progress.now want number }
{
    match want {
        Wanted::Untested | Wanted::Shape | Wanted::Kind | Wanted::Scheduled => None,
        Wanted::Number(least, greatest) => when(is_outside(least, greatest, number), Why::Range),
        Wanted::Argument(argument) => when(progress.is_misfit(argument, number), Why::Range),
        Wanted::Thread => progress.thread_reason(number),
    }
}

/// Whether the reason is `Word`, before which none stands.
fn is_word(found: Option<Why>) -> bool
    ensures { result ≡ is_word found }
{
    matches!(found, Some(Why::Word))
}

/// The reason, where the test says so.
pub fn when(test: bool, why: Why) -> Option<Why>
    ensures { result ≡ when test why }
{
    if test { Some(why) } else { None }
}

/// The reason of the two that stands first in the table.
fn earlier(one: Option<Why>, other: Option<Why>) -> Option<Why>
    ensures { result ≡ earlier one other }
{
    match (one, other) {
        (None, other) => other,
        (Some(why), None) => Some(why),
        (Some(one), Some(other)) => {
            if (one as u8) <= other as u8 {
                Some(one)
            } else {
                Some(other)
            }
        }
    }
}
