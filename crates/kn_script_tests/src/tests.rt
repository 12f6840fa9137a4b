use kn_graph::Call;
use kn_lines::{Actor, Built, OrderWord, TODAY, Until, WHOLE};
use kn_script::{Fault, Script, parse, read_script};
use std::alloc::{AllocError, Global};
use std::test::Fail;

const HEAP: &str = "heap 2 64 1 64 0 2\n";

const NAMES: &str = "heap 2 64 1 64 0 2\nnames 1 1 1 1\n";

const LAYOUTS: &str =
    "heap 2 64 1 64 0 2\nnames 1 1 1 1\nlayout fields ref int\nlayout array int\n";

const THREADS: &str =
    "heap 2 64 1 64 0 2\nnames 1 1 1 1\nlayout fields ref int\nlayout array int\nthreads 2\n";

const TURNS: &str =
    "heap 2 64 1 64 0 2\nnames 1 1 1 1\nlayout fields ref int\nlayout array int\nthreads 2\nturns 9\n";

const BLOCK: &str =
    "heap 2 64 1 64 0 2\nnames 1 1 1 1\nlayout fields ref int\nlayout array int\nthreads 2\nthread 0\n";

const ORDER: &str =
    "heap 2 64 1 64 0 2\nnames 1 1 1 1\nlayout fields ref int\nlayout array int\nthreads 2\nthread 0\norder 0\n";

/// Lines that are bad as the first one, and why.
const FIRST: &str = "Word: heap 1 32 0 32 0 2\t
Word: heap 1 32 0 32 0 2 \x7f
Word: heaps 1 32 0 32 0 2
Word:  # no comment
Word: trigger 1
Number: heap x 32 0 32 0 2
Number: heap 0 32 0 32 0 -1
Number: heap 1 32 0 32 0 18446744073709551616
Number: heap 1 32 0 32 0 000000000000000000002
Range: heap 0 32 0 32 0 2
Range: heap 257 32 0 32 0 2
Range: heap 1 31 0 32 0 2
Range: heap 1 65537 0 32 0 2
Range: heap 1 32 0 32 0 1
Range: heap 255 32 1 32 1
Range: heap 8 65536 7 65536 1 65536
Range: heap 0 32 0 32
Count: heap 1 32 0 32 0
Count: heap 1 32 0 32 0 2 x
Count: layout
Count: gc 0
Count: order
Order: names 0 0 0 0
Range: names 99 0 0 0 0
Order: layout fields
Order: threads 1
Order: turns 1
Order: thread 99
Order: clear 0
Order: new 0 255
Order: gset 255 0
Order: order 255 c r@idle";

/// Lines that are bad behind a heap line, and why.
const SECOND: &str = "Late: heap 1 32 0 32 0 2
Range: heap 0 32 0 32 0 2
Number: names 1 1 1 y
Range: names 65 0 0 0
Count: names 0 0 0
Count: names 0 0 0 0 0
Order: layout array ref";

/// Lines that are bad behind a names line, and why.
const THIRD: &str = "Late: names 0 0 0 0
Word: layout list int
Word: layout fields ref bool
Word: layout array kind x
Count: layout array
Count: layout array int int
Range: gset 1 0
Order: gset 0 0";

/// Lines that are bad behind two layouts, and why.
const FIFTH: &str = "Number: threads two
Range: threads 0
Range: threads 17
Count: threads
Count: threads 1 1
Range: new 0 1
Order: new 0 2
Order: turns 1
Order: order 0";

/// Lines that are bad behind a threads line, and why.
const SIXTH: &str = "Late: threads 1
Late: layout array int
Number: turns many
Range: turns 0
Count: turns 1 1
Number: thread one
Range: thread 2
Count: thread
Range: new 0 2
Order: clear 0";

/// Lines that are bad behind a turns line, and why.
const SEVENTH: &str = "Late: turns 1
Late: names 0 0 0 0
Order: gc";

/// Lines that are bad in the block of a thread, and why.
const IN_BLOCK: &str = "Late: thread 0
Late: turns 1
Word: mew 0 0
Number: new r 0
Number: tie 16 0 n
Range: new 16 0
Range: new 0 1
Range: newa 0 0 1
Range: newa 0 1 60001
Range: copy 0 16
Range: get 0 0 65536
Range: set 0 65536 0
Range: read 16
Range: gset 1 0
Range: gget 0 1
Range: pin 1 0
Range: unpin 1
Range: hget 0 1
Range: weak 1 0
Range: wget 0 1
Range: back 1 0
Range: retain 1
Range: release 1
Range: bget 0 1
Range: tie 0 4 0
Range: tie 0 0 4294967296
Count: put 0 0
Count: same 0 0 0
Word: order c/1
Word: order f/1
Word: order r/1
Word: order 0/x
Word: order 0*18446744073709551616
Word: order 2 *1
Word: order 0**1
Word: order 0@Idle
Word: order r@
Word: order u
Word: order u0*1
Word: order rr
Word: order 0 0 0 0 0 2 x
Word: order 0 0 0 0 0 0 2 x 1
Word: order x 0 0 0 0 0 0 2
Range: order 0 0 0 0 0 0 0 2 0
Range: order 2
Range: order 2@mark
Range: order 0*0
Range: order r*1000001
Range: order 0/0
Range: order 0/1000001
Range: order u4
Range: order 4294967296
Count: order";

/// Lines that are bad behind an order line, and why.
const LAST: &str = "Late: gc
Late: thread 1
Late: turns 1
Late: layout fields
Range: order 2";

/// The line and the reason of a text's fault, in words.
fn told(alloc: Global, built: &Built, text: &str) -> Result<String, AllocError> {
    match read_script(alloc, built, text.as_bytes()) {
        Ok(_) => String::from_str(alloc, "good"),
        Err(Fault::Memory) => String::from_str(alloc, "memory"),
        Err(Fault::Bad { line, why }) => format!(in alloc; "{line} {why:?}"),
    }
}

/// So many pieces between a text and another.
fn repeated(
    alloc: Global,
    before: &str,
    piece: &str,
    count: u32,
    behind: &str,
) -> Result<String, AllocError> {
    let mut text = String::from_str(alloc, before)?;
    for _ in 0..count {
        text.push_str(piece)?;
    }
    text.push_str(behind)?;
    Ok(text)
}

/// Whether this is told of a text of so many pieces between two others.
fn is_told(alloc: Global, built: &Built, limit: Limit) -> Result<bool, AllocError> {
    let Limit(before, piece, count, behind, wanted) = limit;
    let text = repeated(alloc, before, piece, count, behind)?;
    let found = told(alloc, built, text.as_str())?;
    Ok(found.as_str() == wanted)
}

/// A line's number, what stands before it, and lines that are bad there, each behind its reason.
const GROUPS: [(u32, &str, &str); 8] = [
    (1, "", FIRST),
    (2, HEAP, SECOND),
    (3, NAMES, THIRD),
    (5, LAYOUTS, FIFTH),
    (6, THREADS, SIXTH),
    (7, TURNS, SEVENTH),
    (7, BLOCK, IN_BLOCK),
    (8, ORDER, LAST),
];

/// Whether a line behind others is bad at that number, for the reason before it.
fn is_bad(alloc: Global, number: u32, before: &str, case: &str) -> Result<bool, AllocError> {
    let Some((why, line)) = case.split_once(": ") else {
        return Ok(false);
    };
    let wanted = format!(in alloc; "{number} {why}")?;
    is_told(alloc, &WHOLE, Limit(before, line, 1, "", wanted.as_str()))
}

#[test]
fn lines_have_their_first_reason(rt: HostRuntime) -> Result<(), Fail> {
    for (number, before, cases) in &GROUPS {
        for case in cases.lines() {
            assert!(rt; is_bad(rt.alloc(), *number, before, case)?, "{case}");
        }
    }
    Ok(())
}

/// Texts, and what is told of each.
const TEXTS: [(&str, &str); 12] = [
    ("", "1 Count"),
    ("\n", "2 Count"),
    ("\n\n", "3 Count"),
    ("heap 2 64 1 64 0 2", "2 Count"),
    ("heap 2 64 1 64 0 2\r\n\r\n# end", "4 Count"),
    (NAMES, "3 Count"),
    (LAYOUTS, "5 Count"),
    (THREADS, "good"),
    ("heap 2 64 1 64 0 2\r\nnames 1 1 1 1\r\nthreads 1\r", "good"),
    ("heap 2 64 1 64 0 2\r\r\n", "1 Word"),
    ("heap 2 64 1 64 0 2\nnames 1 1 1 1\nthreads 1\r\r", "3 Word"),
    (
        "#\x01\r\r\n  \n heap  02 064 1 64 0 2 \nnames 00000000000000000001 1 1 1\nthreads 1",
        "good",
    ),
];

#[test]
fn texts_end_in_many_ways(rt: HostRuntime) -> Result<(), Fail> {
    for (text, wanted) in &TEXTS {
        assert!(rt;
            is_told(rt.alloc(), &WHOLE, Limit(text, "", 0, "", wanted))?,
            "{text}"
        );
    }
    Ok(())
}

/// Lines in a thread's block, and what is told where only the words of today are built.
const LINES: [(&str, &str); 12] = [
    ("put 15 65535 18446744073709551615", "good"),
    ("gget 0 0", "good"),
    ("pin 99", "7 Word"),
    ("gc", "7 Word"),
    ("order 1 0 1", "good"),
    ("order 2", "7 Range"),
    ("order 0*1 1/2 0@idle c c*3 c@mark r r*4 r@sweep", "good"),
    ("order c/1", "7 Word"),
    ("order r/1", "7 Word"),
    ("order f", "7 Word"),
    ("order f*2", "7 Word"),
    ("order u0", "7 Word"),
];

#[test]
fn words_that_are_not_built_are_unknown(rt: HostRuntime) -> Result<(), Fail> {
    for (line, wanted) in &LINES {
        assert!(rt;
            is_told(rt.alloc(), &TODAY, Limit(BLOCK, line, 1, "", wanted))?,
            "{line}"
        );
    }
    Ok(())
}

/// A text of so many pieces between two others, and what is told of it.
#[derive(Clone, Copy)]
struct Limit<'a>(&'a str, &'a str, u32, &'a str, &'a str);

const FIELDS: &str = "heap 2 64 1 64 0 2\nnames 1 1 1 1\nlayout fields";

const WORDS: &str = "heap 2 64 1 64 0 2\nnames 1 1 1 1\nthreads 1\norder";

const LIMITS: [Limit<'static>; 17] = [
    Limit(NAMES, "layout array int\n", 64, "threads 1", "good"),
    Limit(NAMES, "layout array int\n", 65, "threads 1", "67 Range"),
    Limit(FIELDS, " ref", 64, "\nthreads 1", "good"),
    Limit(FIELDS, " ref", 65, "\nthreads 1", "3 Range"),
    Limit(FIELDS, " ref", 65, " x\nthreads 1", "3 Word"),
    Limit(BLOCK, "gc\n", 16_384, "", "good"),
    Limit(BLOCK, "gc\n", 16_384, "gc\n", "16391 Range"),
    Limit(BLOCK, "gc\n", 16_384, "gc x\n", "16391 Range"),
    Limit(BLOCK, "gc\n", 16_384, "clear x\n", "16391 Number"),
    Limit(WORDS, " 0", 65_536, "", "good"),
    Limit(WORDS, " 0", 65_537, "", "4 Range"),
    Limit(WORDS, " 0", 65_536, "\norder 0", "5 Range"),
    Limit(WORDS, " 0", 65_537, " x", "4 Word"),
    Limit(WORDS, " 0", 65_537, " x 1", "4 Word"),
    Limit(THREADS, "#\n", 524_240, "", "good"),
    Limit(THREADS, "\n", 1_048_494, "", "good"),
    Limit(THREADS, "\n", 1_048_495, "", "1048500 Long"),
];

#[test]
fn texts_meet_the_limits(rt: HostRuntime) -> Result<(), Fail> {
    for limit in &LIMITS {
        assert!(rt; is_told(rt.alloc(), &WHOLE, *limit)?, "{}", limit.2);
    }
    Ok(())
}

/// Who an order word names, and the number that it has, which is 0 for a phase.
fn parts_of(word: OrderWord) -> (u32, u32) {
    match word {
        OrderWord::Run(actor, until) => (number_of_actor(actor), number_of_until(until)),
        OrderWord::Uninstall(cleaner) => (40, u32::from(cleaner)),
    }
}

fn number_of_actor(actor: Actor) -> u32 {
    match actor {
        Actor::Thread(thread) => u32::from(thread),
        Actor::Collector => 20,
        Actor::Finalizer => 21,
        Actor::Round => 30,
    }
}

fn number_of_until(until: Until) -> u32 {
    match until {
        Until::Turns(times) | Until::Calls(times) => times,
        Until::Code(_) => 0,
    }
}

/// Whether these are the parts of the order words.
fn have_parts(words: &[OrderWord], wanted: &[(u32, u32)]) -> bool {
    for (word, parts) in words.iter().zip(wanted.iter()) {
        if parts_of(*word) != *parts {
            return false;
        }
    }
    words.len() == wanted.len()
}

#[test]
fn order_words_are_read(rt: HostRuntime) -> Result<(), Fail> {
    let line = "order 0 1*3 c f@stopb r r*4 1/9 u3";
    let text = repeated(rt.alloc(), THREADS, line, 1, "\n")?;
    let script = read_script(rt.alloc(), &WHOLE, text.as_bytes())?;
    let wanted = [
        (0, 1),
        (1, 3),
        (20, 1),
        (21, 0),
        (30, 1),
        (30, 4),
        (1, 9),
        (40, 3),
    ];
    assert!(rt; have_parts(&script.order, &wanted));
    Ok(())
}

/// Whether a script of two threads, of which the second makes an array and clears a local, is that.
fn is_read(script: &Script) -> bool {
    let sizes = script.sizes;
    let second = match script.threads.get(1) {
        Some(calls) => matches!(calls.as_slice(), [Call::NewArray(1, 1, 60_000), _]),
        None => false,
    };
    script.turns == 9
        && sizes.large == 1
        && sizes.globals == 1
        && sizes.calls[1] == 2
        && sizes.births[1] == 1
        && script.layouts.len() == 2
        && script.threads.len() == 2
        && second
}

#[test]
fn scripts_are_read(rt: HostRuntime) -> Result<(), Fail> {
    let lines = "thread 1\nnewa 1 1 60000\nclear 2\n";
    let text = repeated(rt.alloc(), TURNS, lines, 1, "order 0")?;
    let script = parse(rt.alloc(), text.as_bytes())?;
    assert!(rt; is_read(&script));
    Ok(())
}
