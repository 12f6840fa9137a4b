use kn_script::parse;
use std::alloc::{AllocError, Global};
use std::io;
use std::rt::Clock;
use std::time::Instant;

/// The lines before the first block.
const HEAD: &str =
    "heap 1 64 0 32 0 2\nnames 64 64 64 64\nlayout fields ref int\nlayout array int\nthreads 16\n";

/// A call of each form that is built.
const CALLS: [&str; 11] = [
    "new 0 0\n",
    "newa 1 1 60000\n",
    "copy 15 2\n",
    "clear 3\n",
    "same 4 5\n",
    "get 6 7 65535\n",
    "set 8 0 9\n",
    "put 10 1 18446744073709551615\n",
    "read 11 1\n",
    "gset 63 12\n",
    "gget 13 63\n",
];

/// A text: its name, what stands behind the head, and a piece that is repeated so often at most.
#[derive(Clone, Copy)]
struct Repeated(&'static str, &'static str, &'static str, u32);

const REPEATED: [Repeated; 10] = [
    Repeated("order words", "order", " 0", 65_536),
    Repeated("too many order words", "order", " 0", u32::MAX),
    Repeated(
        "order words of 20 digits",
        "order",
        " 00000000000000000007",
        u32::MAX,
    ),
    Repeated("order words out of range", "order", " 16", u32::MAX),
    Repeated("order words that are none", "order", " x", u32::MAX),
    Repeated("order lines", "thread 0", "\norder 0", 65_536),
    Repeated("too many kinds", "layout fields", " ref", u32::MAX),
    Repeated("too many numbers", "turns", " 1", u32::MAX),
    Repeated("comments", "", "#\n", u32::MAX),
    Repeated("empty lines", "", "\n", u32::MAX),
];

/// Parses texts of up to so many bytes, the first of them with so many calls of each of 16 threads.
/// Prints what each text was, and in a timed run how long it took.
pub fn run_texts(
    rt: &(impl AllocGlobal + Clock + Print),
    calls: usize,
    bytes: usize,
    timed: bool,
) -> io::Result<()> {
    let text = calls_text(rt.alloc(), calls, bytes)?;
    run_text(rt, "calls of all forms", text.as_bytes(), timed)?;
    for repeated in &REPEATED {
        let text = repeated_text(rt.alloc(), *repeated, bytes)?;
        run_text(rt, repeated.0, text.as_bytes(), timed)?;
    }
    Ok(())
}

/// Parses a text, and prints whether it was that of a script.
fn run_text(
    rt: &(impl AllocGlobal + Clock + Print),
    name: &str,
    text: &[u8],
    timed: bool,
) -> io::Result<()> {
    let start = Instant::now(rt)?;
    let script = parse(rt.alloc(), text);
    let time = start.elapsed(rt)?;
    let told = if script.is_ok() { "read" } else { "refused" };
    let count = text.len();
    if timed {
        println!(rt; "{name}: {count} bytes, {told}, {time:?}")
    } else {
        println!(rt; "{name}: {count} bytes, {told}")
    }
}

/// A script with so many calls of each of 16 threads, and behind them comments up to so many bytes. An
/// error is want of memory.
fn calls_text(alloc: Global, calls: usize, bytes: usize) -> Result<String, AllocError> {
    let mut text = String::from_str(alloc, HEAD)?;
    for thread in 0..16 {
        let line = format!(in alloc; "thread {thread}\n")?;
        text.push_str(&line)?;
        for call in 0..calls {
            text.push_str(CALLS[call % 11])?;
        }
    }
    push_pieces(&mut text, "# a comment\n", u32::MAX, bytes)?;
    Ok(text)
}

/// The head, and a text behind it. An error is want of memory.
fn repeated_text(alloc: Global, repeated: Repeated, bytes: usize) -> Result<String, AllocError> {
    let mut text = String::from_str(alloc, HEAD)?;
    text.push_str(repeated.1)?;
    push_pieces(&mut text, repeated.2, repeated.3, bytes)?;
    Ok(text)
}

/// Adds a piece so often at most, and while there are no more than so many bytes. An error is want of
/// memory.
fn push_pieces(text: &mut String, piece: &str, most: u32, bytes: usize) -> Result<(), AllocError> {
    for _ in 0..most {
        if bytes.saturating_sub(text.len()) < piece.len() {
            break;
        }
        text.push_str(piece)?;
    }
    Ok(())
}
