//! Scripts that build a graph and have it marked once, as texts.

use std::alloc::{AllocError, Global};

/// The shape of a graph.
#[derive(Clone, Copy)]
pub enum Shape {
    /// So many objects, each of which points to the one before it.
    List(u32),
    /// So many arrays, each of which points to the array before it, and to 100 objects.
    Arrays(u32),
}

/// A graph, the words of each of its nine frames, and whether its thread helps to mark it.
#[derive(Clone, Copy)]
pub struct Marked {
    pub shape: Shape,
    pub frame_words: u32,
    pub helps: bool,
}

/// A list of so many objects, and so many arrays, each marked by the collector alone and with help.
pub fn graphs(objects: u32, arrays: u32, frame_words: u32) -> [Marked; 4] {
    let list = Marked {
        shape: Shape::List(objects),
        frame_words,
        helps: false,
    };
    let held = Marked {
        shape: Shape::Arrays(arrays),
        ..list
    };
    [
        list,
        Marked {
            helps: true,
            ..list
        },
        held,
        Marked {
            helps: true,
            ..held
        },
    ]
}

/// What a graph is, in words. An error is want of memory.
pub fn name_of(alloc: Global, marked: Marked) -> Result<String, AllocError> {
    let who = if marked.helps {
        "the collector and a thread"
    } else {
        "the collector alone"
    };
    match marked.shape {
        Shape::List(count) => format!(in alloc; "{who}, a list of {count} objects"),
        Shape::Arrays(count) => format!(in alloc; "{who}, {count} arrays of 100 objects each"),
    }
}

/// The text of a graph's script, whose run may take so many turns. Where the thread does not help, the
/// collector alone has turns in Mark; where it does, each of the two has every other one. An error is
/// want of memory.
pub fn text_of(alloc: Global, marked: Marked, turns: u32) -> Result<String, AllocError> {
    let words = marked.frame_words;
    let mut text = format!(in alloc;
        "heap 9 {words} 0 64 0 2\nnames 0 0 0 0\nlayout fields ref int\n\
        layout array ref\nthreads 1\nturns {turns}\nthread 0\n"
    )?;
    match marked.shape {
        Shape::List(count) => push_list(alloc, count, &mut text)?,
        Shape::Arrays(count) => push_arrays(alloc, count, &mut text)?,
    }
    let half = calls_of(marked.shape) / 2;
    let whole = 2 * half;
    let order = format!(in alloc; "gc\norder 0/{half} 0/{whole} r@mark\n")?;
    text.push_str(&order)?;
    if !marked.helps {
        text.push_str("order c@weak c@weak c@weak c@weak\n")?;
    }
    Ok(text)
}

/// How many calls make a graph.
fn calls_of(shape: Shape) -> u32 {
    match shape {
        Shape::List(count) => count.saturating_mul(2),
        Shape::Arrays(count) => count.saturating_mul(203),
    }
}

/// The calls that make a list.
fn push_list(alloc: Global, count: u32, text: &mut String) -> Result<(), AllocError> {
    for object in 0..count {
        let local = object % 2;
        let before = 1 - local;
        let calls = format!(in alloc; "new {local} 0\nset {local} 0 {before}\n")?;
        text.push_str(&calls)?;
    }
    Ok(())
}

/// The calls that make arrays with their objects.
fn push_arrays(alloc: Global, count: u32, text: &mut String) -> Result<(), AllocError> {
    for _ in 0..count {
        text.push_str("newa 0 1 101\nset 0 0 1\ncopy 1 0\n")?;
        for element in 1..101u32 {
            let calls = format!(in alloc; "new 2 0\nset 1 {element} 2\n")?;
            text.push_str(&calls)?;
        }
    }
    Ok(())
}
