ghost use Rattle.std.specs.Prelude.{◌≡◌, ◌≤◌};
ghost use Rattle.kn_base.specs.Sizes.{IsGood};

use kn_base::{Caller, Sizes};
use kn_graph::{Call, Entry, Event, Reply};
use kn_layout::{FieldKind, FieldKinds, Layout};
use kn_replay::Graph;
use std::alloc::{AllocError, Global};
use std::io;
use std::rt::Clock;
use std::time::Instant;

/// The words of an object of the layout `fields ref int`.
const CELL: u32 = 3;

/// The objects of a frame.
const OBJECTS: u32 = 1_302;

/// So many small frames, each of as many words as its objects have, and one thread.
fn heap(frames: u8) -> Sizes
    requires { 1 ≤ frames }
    ensures { IsGood result }
{
    Sizes {
        small: u32::from(frames),
        small_words: OBJECTS * CELL,
        large: 0,
        large_words: 64,
        extra: 0,
        extra_words: 2,
        globals: 1,
        stable: 1,
        weak: 1,
        back: 1,
        threads: 1,
        calls: [0; 16],
        births: [0; 16],
    }
}

/// Builds a chain of objects that fills so many frames, reads along it, pauses, and prints what each
/// step did, and in a timed run how long it took.
pub fn run_model(rt: &(impl AllocGlobal + Clock + Print), frames: u8, timed: bool) -> io::Result<()>
    requires { 1 ≤ frames }
{
    let alloc = rt.alloc();
    let kinds = FieldKinds::from_vec(vec![in alloc; FieldKind::Ref, FieldKind::Int]?);
    let mut graph = Graph::open(alloc, &heap(frames), &[Layout::Fields(kinds)])?;
    let objects = u32::from(frames) * OBJECTS;
    run_step(
        rt,
        "build a chain",
        &mut graph,
        &chain(alloc, objects)?,
        timed,
    )?;
    run_step(
        rt,
        "read along it",
        &mut graph,
        &reads(alloc, objects)?,
        timed,
    )?;
    let pause = [Entry {
        by: Caller(1),
        epoch: 1,
        what: Event::Pause(1),
    }];
    run_step(rt, "pause", &mut graph, &pause, timed)
}

/// Applies entries, and prints how many there were and how many were legal.
fn run_step(
    rt: &(impl AllocGlobal + Clock + Print),
    name: &str,
    graph: &mut Graph,
    entries: &[Entry],
    timed: bool,
) -> io::Result<()> {
    let start = Instant::now(rt)?;
    let legal = apply_all(graph, entries)?;
    let time = start.elapsed(rt)?;
    let count = entries.len();
    let objects = graph.objects();
    if timed {
        println!(rt; "{name}: {count} entries, {legal} legal, {objects} objects, {time:?}")
    } else {
        println!(rt; "{name}: {count} entries, {legal} legal, {objects} objects")
    }
}

/// Applies entries, and answers how many were legal. An error is want of memory.
fn apply_all(graph: &mut Graph, entries: &[Entry]) -> Result<u32, AllocError> {
    let mut legal: u32 = 0;
    for entry in entries {
        if graph.objects() < u32::MAX && graph.apply(entry)? {
            legal = legal.saturating_add(1);
        }
    }
    Ok(legal)
}

/// The entries that build a chain: each object is born, points to the one before it, and is then held
/// by local 0 alone. An error is want of memory.
fn chain(alloc: Global, objects: u32) -> Result<Vec<Entry>, AllocError>
    requires { objects ≤ 1000000 }
{
    let mut entries = Vec::new(alloc);
    for n in 0..objects {
        entries.push(entry(Call::New(1, 0), Reply::Ok, 1 + n * CELL))?;
        entries.push(entry(Call::Set(1, 0, 0), Reply::Ok, 0))?;
        entries.push(entry(Call::Copy(0, 1), Reply::Ok, 0))?;
    }
    Ok(entries)
}

/// As many entries as objects, which read what the last two objects hold. An error is want of memory.
fn reads(alloc: Global, objects: u32) -> Result<Vec<Entry>, AllocError> {
    let mut entries = Vec::new(alloc);
    for n in 0..objects {
        entries.push(match n % 3 {
            0 => entry(Call::Get(2, 0, 0), Reply::Ref, 0),
            1 => entry(Call::Read(2, 1), Reply::Int(0), 0),
            _ => entry(Call::Same(0, 2), Reply::No, 0),
        })?;
    }
    Ok(entries)
}

/// The entry of a call of the one thread, before the first pause.
fn entry(call: Call, reply: Reply, address: u32) -> Entry {
    Entry {
        by: Caller(0),
        epoch: 0,
        what: Event::Call(call, reply, address),
    }
}
