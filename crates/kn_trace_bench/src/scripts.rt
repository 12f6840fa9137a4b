//! The scripts that are traced, as texts.

use std::alloc::{AllocError, Global};

/// A script: its name, its heap, how many threads it has, the calls of each thread (the first ones,
/// and a piece that is repeated so often), its order, and how many turns it may take.
#[derive(Clone, Copy)]
pub struct Traced {
    pub name: &'static str,
    pub head: &'static str,
    pub threads: u8,
    pub first: &'static str,
    pub piece: &'static str,
    pub times: usize,
    pub order: &'static str,
    pub turns: u32,
}

/// Nearly all turns clear a word of an array; look at a frame in a search; or are of calls on fields,
/// locals and globals, with one of the collector in each round.
pub const SCRIPTS: [Traced; 3] = [
    Traced {
        name: "clearing words",
        head: "heap 1 64 14 65536 0 2\nnames 0 0 0 0\nlayout array int\n",
        threads: 1,
        first: "",
        piece: "newa 0 0 60000\n",
        times: 14,
        order: "order 0*1000000\n",
        turns: 800_000,
    },
    Traced {
        name: "looking at frames",
        head: "heap 256 64 0 64 0 2\nnames 0 0 0 0\nlayout array int\n",
        threads: 1,
        first: "",
        piece: "newa 0 0 63\n",
        times: 16_000,
        order: "order 0*1000000 0*1000000 0*1000000 0*1000000\n",
        turns: 4_000_000,
    },
    Traced {
        name: "calls in rounds",
        head: "heap 16 64 0 64 0 2\nnames 1 0 0 0\nlayout fields ref int\n",
        threads: 16,
        first: "new 0 0\nnew 1 0\n",
        piece: "set 0 0 1\nget 2 0 0\ncopy 3 2\ngset 0 3\ngget 4 0\nput 0 1 7\nread 0 1\nsame 0 1\nclear 5\n",
        times: 113,
        order: "",
        turns: 40_000,
    },
];

/// The text of a script that may take so many turns. An error is want of memory.
pub fn text_of(alloc: Global, traced: &Traced, turns: u32) -> Result<String, AllocError> {
    let mut text = String::from_str(alloc, traced.head)?;
    let threads = traced.threads;
    let line = format!(in alloc; "threads {threads}\nturns {turns}\n")?;
    text.push_str(&line)?;
    for thread in 0..threads {
        let line = format!(in alloc; "thread {thread}\n")?;
        text.push_str(&line)?;
        text.push_str(traced.first)?;
        for _ in 0..traced.times {
            text.push_str(traced.piece)?;
        }
    }
    text.push_str(traced.order)?;
    Ok(text)
}
