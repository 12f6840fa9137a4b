ghost use Rattle.std.specs.Prelude.{◌≡◌, IfOk};
ghost use Rattle.kn_base.specs.Sizes.{IsGood};

use kn_base::{Caller, Sizes};
use kn_graph::{Call, Entry, Event, Reply};
use kn_layout::{FieldKind, FieldKinds, Layout};
use kn_replay::Graph;
use std::alloc::{AllocError, Global};
use std::test::Fail;

const SPELLED: &str = "ok full nil yes no ref null nofield kind int 18446744073709551615 \
    taken vacant none count 4095 top zero already epoch 3 ";

const REPLIES: [Reply; 18] = [
    Reply::Ok,
    Reply::Full,
    Reply::Nil,
    Reply::Yes,
    Reply::No,
    Reply::Ref,
    Reply::Null,
    Reply::NoField,
    Reply::WrongKind,
    Reply::Int(18_446_744_073_709_551_615),
    Reply::Taken,
    Reply::Vacant,
    Reply::Nothing,
    Reply::Count(4095),
    Reply::Top,
    Reply::Zero,
    Reply::Already,
    Reply::Epoch(3),
];

#[test]
fn replies_are_spelled(rt: HostRuntime) -> Result<(), Fail> {
    let mut text = String::new(rt.alloc());
    for reply in &REPLIES {
        write!(text, "{reply} ")?;
    }
    assert!(rt; text.as_str() == SPELLED);
    Ok(())
}

/// One small frame of 64 words, two threads, and two globals and names of each kind.
fn small_heap() -> Sizes
    ensures good { IsGood result }
    ensures threads { result.threads ≡ 2 }
{
    Sizes {
        small: 1,
        small_words: 64,
        large: 0,
        large_words: 64,
        extra: 0,
        extra_words: 2,
        globals: 2,
        stable: 2,
        weak: 2,
        back: 2,
        threads: 2,
        calls: [0; 16],
        births: [0; 16],
    }
}

/// The empty graph over that heap, with the layouts `fields ref int`, `array int` and `array ref`.
fn open(alloc: Global) -> Result<Graph, AllocError>
    ensures { IfOk result (λ graph. graph.ground.sizes.threads ≡ 2) }
{
    let kinds = FieldKinds::from_vec(vec![in alloc; FieldKind::Ref, FieldKind::Int]?);
    let layouts = [
        Layout::Fields(kinds),
        Layout::Array(FieldKind::Int),
        Layout::Array(FieldKind::Ref),
    ];
    Graph::open(alloc, &small_heap(), &layouts)
}

/// Applies an entry, and answers whether it was legal.
fn is_legal(graph: &mut Graph, by: u8, epoch: u32, what: Event) -> Result<bool, AllocError> {
    if graph.objects() == u32::MAX {
        return Ok(false);
    }
    let entry = Entry {
        by: Caller(by),
        epoch,
        what,
    };
    graph.apply(&entry)
}

/// Applies the entry of a call of thread 0 before the first pause.
fn is_legal_call(
    graph: &mut Graph,
    call: Call,
    reply: Reply,
    address: u32,
) -> Result<bool, AllocError> {
    is_legal(graph, 0, 0, Event::Call(call, reply, address))
}

/// Applies entries, and answers whether each was legal exactly where it was to be.
fn replay(graph: &mut Graph, table: &[(u8, u32, Event, bool)]) -> Result<bool, AllocError> {
    for (by, epoch, what, legal) in table {
        if is_legal(graph, *by, *epoch, *what)? != *legal {
            return Ok(false);
        }
    }
    Ok(true)
}

/// Callers, epochs and events, and whether each is legal next.
const CALLS: [(u8, u32, Event, bool); 44] = [
    (0, 0, Event::Call(Call::New(0, 0), Reply::Ok, 1), true),
    (0, 0, Event::Released(1), false),
    (0, 0, Event::Call(Call::New(1, 0), Reply::Ok, 3), false),
    (0, 0, Event::Call(Call::New(1, 0), Reply::Ok, 63), false),
    (0, 0, Event::Call(Call::New(1, 0), Reply::Full, 4), false),
    (0, 0, Event::Call(Call::New(1, 0), Reply::Full, 0), true),
    (0, 0, Event::Call(Call::New(1, 0), Reply::Ok, 4), true),
    (0, 0, Event::Call(Call::New(1, 1), Reply::Ok, 7), false),
    (
        0,
        0,
        Event::Call(Call::NewArray(5, 1, 3), Reply::Ok, 7),
        true,
    ),
    (2, 0, Event::Call(Call::Clear(2), Reply::Ok, 0), false),
    (0, 1, Event::Call(Call::Clear(2), Reply::Ok, 0), false),
    (0, 0, Event::Call(Call::Clear(16), Reply::Ok, 0), false),
    (0, 0, Event::Call(Call::Clear(2), Reply::Full, 0), false),
    (0, 0, Event::Call(Call::Clear(2), Reply::Ok, 0), true),
    (0, 0, Event::Call(Call::Same(0, 1), Reply::Yes, 0), false),
    (0, 0, Event::Call(Call::Same(0, 1), Reply::No, 0), true),
    (0, 0, Event::Call(Call::Copy(2, 0), Reply::Ok, 0), true),
    (0, 0, Event::Call(Call::Same(0, 2), Reply::Yes, 0), true),
    (0, 0, Event::Call(Call::Get(2, 0, 0), Reply::Null, 0), true),
    (
        0,
        0,
        Event::Call(Call::Get(2, 0, 1), Reply::WrongKind, 0),
        true,
    ),
    (
        0,
        0,
        Event::Call(Call::Get(2, 5, 3), Reply::NoField, 0),
        true,
    ),
    (0, 0, Event::Call(Call::Set(0, 0, 1), Reply::Ok, 0), true),
    (0, 0, Event::Call(Call::Get(3, 0, 0), Reply::Ref, 0), true),
    (0, 0, Event::Call(Call::Put(0, 1, 9), Reply::Ok, 0), true),
    (0, 0, Event::Call(Call::Read(0, 1), Reply::Int(8), 0), false),
    (0, 0, Event::Call(Call::Read(0, 1), Reply::Int(9), 0), true),
    (0, 0, Event::Call(Call::GlobalSet(0, 0), Reply::Ok, 0), true),
    (
        1,
        0,
        Event::Call(Call::GlobalGet(0, 0), Reply::Ref, 0),
        true,
    ),
    (
        1,
        0,
        Event::Call(Call::GlobalGet(0, 2), Reply::Null, 0),
        false,
    ),
    (0, 0, Event::Call(Call::Pin(0, 0), Reply::Ok, 0), true),
    (0, 0, Event::Call(Call::Pin(0, 1), Reply::Taken, 0), true),
    (
        0,
        0,
        Event::Call(Call::StableGet(4, 0), Reply::Ref, 0),
        true,
    ),
    (0, 0, Event::Call(Call::Unpin(0), Reply::Ok, 0), true),
    (0, 0, Event::Call(Call::Unpin(0), Reply::Vacant, 0), true),
    (0, 0, Event::Call(Call::MakeWeak(0, 1), Reply::Ok, 0), true),
    (0, 0, Event::Call(Call::WeakGet(4, 0), Reply::Ref, 0), true),
    (0, 0, Event::Call(Call::MakeBack(0, 1), Reply::Ok, 0), true),
    (0, 0, Event::Call(Call::Retain(0), Reply::Count(1), 0), true),
    (
        0,
        0,
        Event::Call(Call::Release(0), Reply::Count(0), 0),
        true,
    ),
    (0, 0, Event::Call(Call::Release(0), Reply::Zero, 0), true),
    (0, 0, Event::Call(Call::BackGet(4, 0), Reply::Ref, 0), true),
    (0, 0, Event::Call(Call::Tie(1, 0, 7), Reply::Ok, 0), true),
    (
        0,
        0,
        Event::Call(Call::Tie(1, 1, 8), Reply::Already, 0),
        true,
    ),
    (1, 0, Event::Call(Call::Collect, Reply::Epoch(1), 0), false),
];

const COLLECTIONS: [(u8, u32, Event, bool); 37] = [
    (0, 0, Event::Call(Call::New(0, 0), Reply::Ok, 1), true),
    (0, 0, Event::Call(Call::New(1, 0), Reply::Ok, 4), true),
    (0, 0, Event::Call(Call::New(2, 0), Reply::Ok, 7), true),
    (0, 0, Event::Call(Call::MakeBack(0, 1), Reply::Ok, 0), true),
    (0, 0, Event::Call(Call::Tie(1, 0, 7), Reply::Ok, 0), true),
    (0, 0, Event::Call(Call::Clear(1), Reply::Ok, 0), true),
    (0, 0, Event::Call(Call::Clear(2), Reply::Ok, 0), true),
    (1, 0, Event::Pause(1), false),
    (2, 2, Event::Pause(2), false),
    (2, 1, Event::Pause(1), true),
    (2, 2, Event::Pause(2), false),
    (0, 1, Event::Call(Call::Release(0), Reply::Zero, 0), false),
    (0, 1, Event::Call(Call::Release(0), Reply::Nothing, 0), true),
    (0, 1, Event::Released(1), false),
    (0, 1, Event::Released(4), false),
    (0, 0, Event::Released(7), false),
    (3, 1, Event::Released(7), false),
    (0, 1, Event::Released(7), true),
    (0, 1, Event::Released(7), false),
    (2, 1, Event::Done(1), false),
    (2, 1, Event::Queued(1), false),
    (2, 1, Event::Queued(4), true),
    (2, 1, Event::Queued(4), false),
    (3, 0, Event::Finalized(4, 0, 8), false),
    (3, 0, Event::Finalized(4, 0, 7), true),
    (3, 0, Event::Finalized(4, 0, 7), false),
    (2, 1, Event::Done(1), true),
    (2, 1, Event::Done(1), false),
    (1, 1, Event::Call(Call::Collect, Reply::Epoch(2), 0), false),
    (1, 1, Event::Call(Call::Collect, Reply::Epoch(1), 0), true),
    (1, 1, Event::Call(Call::Collect, Reply::Epoch(1), 0), false),
    (0, 1, Event::Call(Call::New(2, 0), Reply::Ok, 4), false),
    (0, 1, Event::Call(Call::New(2, 0), Reply::Ok, 7), true),
    (2, 2, Event::Pause(2), true),
    (2, 2, Event::Done(2), false),
    (1, 2, Event::Released(4), true),
    (2, 2, Event::Done(2), true),
];

/// Whether each entry of a table is legal exactly where it was to be, and behind them so many objects
/// are born and so many pauses have come. An error is want of memory.
fn replays(
    alloc: Global,
    table: &[(u8, u32, Event, bool)],
    objects: u32,
    epoch: u32,
) -> Result<bool, AllocError> {
    let mut graph = open(alloc)?;
    Ok(replay(&mut graph, table)? && graph.objects() == objects && graph.epoch() == epoch)
}

#[test]
fn histories_are_replayed(rt: HostRuntime) -> Result<(), Fail> {
    let calls = replays(rt.alloc(), &CALLS, 3, 0)?;
    assert!(rt; calls && replays(rt.alloc(), &COLLECTIONS, 4, 2)?);
    Ok(())
}

#[test]
fn calls_are_answered(rt: HostRuntime) -> Result<(), Fail> {
    let mut graph = open(rt.alloc())?;
    assert!(rt; graph.objects() == 0);
    let reply = graph.answer(Caller(0), &Call::Same(0, 0), 0, &Reply::Ok)?;
    assert!(rt; matches!(reply, Reply::Yes));
    Ok(())
}

/// An object, its field and what it points to: 0, 1 and 2 are a cycle, 3, 4 and 5 a chain to it, 7
/// leads to 8, and 9 to itself.
const POINTERS: [(u8, u32, u8); 9] = [
    (0, 1, 1),
    (1, 0, 2),
    (2, 0, 0),
    (2, 1, 2),
    (3, 0, 4),
    (4, 0, 5),
    (5, 0, 0),
    (7, 1, 8),
    (9, 0, 9),
];

/// Object 1 goes into a local of the other thread, 6 into a back name without a count, and 7 into one
/// with a count.
const ROOTS: [(u8, u32, Event, bool); 6] = [
    (0, 0, Event::Call(Call::GlobalSet(0, 1), Reply::Ok, 0), true),
    (
        1,
        0,
        Event::Call(Call::GlobalGet(15, 0), Reply::Ref, 0),
        true,
    ),
    (
        0,
        0,
        Event::Call(Call::GlobalSet(0, 11), Reply::Ok, 0),
        true,
    ),
    (0, 0, Event::Call(Call::MakeBack(0, 6), Reply::Ok, 0), true),
    (0, 0, Event::Call(Call::MakeBack(1, 7), Reply::Ok, 0), true),
    (0, 0, Event::Call(Call::Retain(1), Reply::Count(1), 0), true),
];

/// Makes ten objects with these pointers and roots in an empty graph, and answers whether each entry was
/// legal. An error is want of memory.
fn make_ten(graph: &mut Graph) -> Result<bool, AllocError> {
    let mut good = true;
    for n in 0..10 {
        let address = 1 + 3 * u32::from(n);
        good &= is_legal_call(graph, Call::NewArray(n, 2, 2), Reply::Ok, address)?;
    }
    for (s, field, r) in &POINTERS {
        good &= is_legal_call(graph, Call::Set(*s, *field, *r), Reply::Ok, 0)?;
    }
    good &= replay(graph, &ROOTS)?;
    for n in 0..10 {
        good &= is_legal_call(graph, Call::Clear(n), Reply::Ok, 0)?;
    }
    Ok(good)
}

/// Whether an empty graph, in which the ten objects are made, marks those that are reachable. An error is
/// want of memory.
fn ten_are_marked(alloc: Global, graph: &mut Graph) -> Result<bool, AllocError> {
    let good = make_ten(graph)?;
    let mut marks = vec![in alloc; true; graph.objects() as usize]?;
    graph.reachable(&mut marks);
    Ok(good && marks.as_slice() == REACHABLE.as_slice())
}

/// Which of the ten objects are reachable.
const REACHABLE: [bool; 10] = [
    true, true, true, false, false, false, false, true, true, false,
];

#[test]
fn what_is_reachable_is_marked(rt: HostRuntime) -> Result<(), Fail> {
    let mut graph = open(rt.alloc())?;
    let good = ten_are_marked(rt.alloc(), &mut graph)?;
    assert!(rt; good);
    Ok(())
}
