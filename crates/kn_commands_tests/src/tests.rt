use kn_base::{FrameNo, FramePage};
use kn_board::Board;
use kn_commands::{Status, exit_of, run_trace, run_words};
use kn_io::{MemSink, MemSource};
use kn_page::Page;
use kn_script::Why;
use std::alloc::{AllocError, Global};
use std::process::ExitCode;
use std::test::Fail;

const SCRIPT: &str =
    "heap 1 64 0 64 0 2\nnames 0 0 0 0\nlayout fields ref int\nthreads 1\nthread 0\nnew 0 0\nsame 0 0\n";

const USAGE: &str = "usage: kn_run trace | run | gen N | cms\n";

/// What a report says behind the number of its calls.
const TAIL: &str = "epochs 0\nreleased 0\nqueued 0\nfinalized 0\nend\n";

/// What is written of a trace and of a core of that script.
const REPORT: &str =
    "thread 0\nok\nyes\ncalls 2\nepochs 0\nreleased 0\nqueued 0\nfinalized 0\nend\n";

const CORE: &str = "thread 0\nok\nyes\nobject 0 kept\nsnapshot 1\ncondemned 0\nend\n";

const PAIRS: &str =
    "heap 1 64 0 64 1 16\nnames 1 1 1 1\nlayout fields ref int\nthreads 1\nthread 0\n";

const NUMBERS: &str =
    "heap 1 64 0 64 1 16\nnames 1 1 1 1\nlayout fields int int int\nthreads 1\nthread 0\n";

const SINGLES: &str =
    "heap 1 64 0 64 1 16\nnames 1 1 1 1\nlayout fields int\nthreads 1\nthread 0\n";

const SEVENS: &str =
    "heap 2 32 0 64 0 2\nnames 0 0 0 0\nlayout fields ref int ref int ref int ref int ref int ref int ref int\nthreads 1\nthread 0\n";

const ARRAYS: &str =
    "heap 4 64 0 64 0 2\nnames 0 0 0 0\nlayout array ref\nlayout array int\nthreads 1\nthread 0\n";

const SIZES: &str = "heap 1 64 2 128 0 2\nnames 0 0 0 0\nlayout array int\nthreads 1\n\
    thread 0\nnewa 0 0 63\nnewa 1 0 64\nnewa 2 0 127\nnewa 3 0 128\n";

/// Threads that meet in a global, and the order of their turns.
const MEETING: &str = "heap 2 64 0 64 0 2\nnames 1 0 0 0\nlayout fields ref int\nthreads 3\n\
    thread 0\nnew 0 0\nput 0 1 7\ngset 0 0\n\
    thread 2\ngget 0 0\nread 0 1\ngget 1 0\nsame 0 1\n";

/// Whether what these words ask for, of a script, with devices of pieces of 8 bytes whose calls of these
/// numbers fail, ends with this number, and this text is written.
fn ends(
    alloc: Global,
    words: &[&str],
    script: &str,
    faults: (&[u32], &[u32]),
    wanted: (u8, &str),
) -> Result<bool, AllocError> {
    let (reads, writes) = faults;
    let mut source = MemSource::open(alloc, script.as_bytes(), 8, reads)?;
    let mut sink = MemSink::open(alloc, 1000, 8, writes)?;
    let status = run_words(alloc, words, &mut source, &mut sink).status;
    let (number, told) = wanted;
    Ok(status.number() == number && sink.held() == told.as_bytes())
}

/// Whether what a word asks for, of a script in two parts, ends with this number, and this text in two
/// parts is written.
fn ends_with(
    alloc: Global,
    word: &str,
    script: [&str; 2],
    wanted: u8,
    told: [&str; 2],
) -> Result<bool, AllocError> {
    let script = script.concat(alloc)?;
    let told = told.concat(alloc)?;
    ends(
        alloc,
        &[word],
        script.as_str(),
        (&[], &[]),
        (wanted, told.as_str()),
    )
}

/// So many pieces, one behind another.
fn repeated(alloc: Global, piece: &str, count: usize) -> Result<String, AllocError> {
    let mut text = String::new(alloc);
    for _ in 0..count {
        text.push_str(piece)?;
    }
    Ok(text)
}

/// Scripts in two parts, and what is written before the counts of events.
const TRACES: [[&str; 3]; 9] = [
    [SCRIPT, "", "thread 0\nok\nyes\ncalls 2\n"],
    [PAIRS, "", "thread 0\ncalls 0\n"],
    [
        PAIRS,
        "new 0 0\ncopy 2 0\nget 0 1 0\nsame 0 2",
        "thread 0\nok\nok\nnil\nyes\ncalls 4\n",
    ],
    [
        NUMBERS,
        "new 0 0\nput 0 2 9\nread 0 2\nput 0 3 1\nread 0 3\nget 1 0 0",
        "thread 0\nok\nok\nint 9\nnofield\nnofield\nkind\ncalls 6\n",
    ],
    [
        SEVENS,
        "new 0 0\nnew 1 0\nnew 2 0\nnew 3 0\nnew 4 0\nsame 4 5\ncopy 6 0\nsame 6 0\nclear 6\nsame 6 0",
        "thread 0\nok\nok\nok\nok\nfull\nyes\nok\nyes\nok\nno\ncalls 10\n",
    ],
    [
        ARRAYS,
        "newa 0 0 63\nnewa 1 1 64\nnewa 1 1 2\n\
         set 0 62 1\nset 0 63 1\nset 0 0 15\nget 2 0 62\nsame 2 1\nget 2 0 0\n\
         put 1 1 18446744073709551615\nread 1 1\nread 1 0\nset 1 0 0\nclear 0\nget 3 0 99\n",
        "thread 0\nok\nfull\nok\nok\nnofield\nok\nref\nyes\nnull\nok\nint 18446744073709551615\nint 0\nkind\nok\nnil\ncalls 15\n",
    ],
    [
        MEETING,
        "",
        "thread 0\nok\nok\nok\nthread 1\nthread 2\nnull\nnil\nnull\nyes\ncalls 7\n",
    ],
    [
        MEETING,
        "order 0 0 0 0 0 0 0 0 0 0 0 0\norder 0 0 0 0 1 2",
        "thread 0\nok\nok\nok\nthread 1\nthread 2\nref\nint 7\nref\nyes\ncalls 7\n",
    ],
    [SIZES, "", "thread 0\nok\nok\nok\nfull\ncalls 4\n"],
];

/// Whether the births of 33 objects in a heap with room for 32 are answered.
fn births_are_traced(alloc: Global) -> Result<bool, AllocError> {
    let births = repeated(alloc, "new 0 0\n", 33)?;
    let oks = repeated(alloc, "ok\n", 32)?;
    let told = format!(in alloc; "thread 0\n{oks}full\ncalls 33\n")?;
    let script = [SINGLES, births.as_str()];
    ends_with(alloc, "trace", script, 0, [told.as_str(), TAIL])
}

#[test]
fn scripts_are_traced(rt: HostRuntime) -> Result<(), Fail> {
    for [before, calls, told] in &TRACES {
        assert!(rt; ends_with(rt.alloc(), "trace", [before, calls], 0, [told, TAIL])?);
    }
    assert!(rt; births_are_traced(rt.alloc())?);
    Ok(())
}

/// The word of a frame, and the free words of the frame's page.
fn left_in(board: &Board<Page>, frame: FrameNo) -> Option<(u64, u32)> {
    let word = board.frame_word(frame)?;
    let page = board.page(frame)?;
    Some((word, page.free_words()))
}

/// What a frame has behind a script's run.
fn frame_left(alloc: Global, script: &str, number: u16) -> Result<Option<(u64, u32)>, AllocError> {
    let mut source = MemSource::open(alloc, script.as_bytes(), 64, &[])?;
    let mut sink = MemSink::open(alloc, 1000, 64, &[])?;
    let end = run_trace(alloc, &mut source, &mut sink);
    Ok(match &end.board {
        Some(board) => left_in(board, FrameNo(number)),
        None => None,
    })
}

/// Scripts, frames, the word of each and the free words of its page.
const FRAMES: [(&str, u16, (u64, u32)); 4] = [
    (SCRIPT, 0, (144_118_486_610_739_200, 61)),
    (SIZES, 0, (216_209_065_997_500_416, 0)),
    (SIZES, 1, (216_210_165_509_128_192, 63)),
    (SIZES, 2, (216_210_165_509_128_192, 0)),
];

#[test]
fn frames_are_left(rt: HostRuntime) -> Result<(), Fail> {
    for (script, number, wanted) in &FRAMES {
        let left = frame_left(rt.alloc(), script, *number)?;
        assert!(rt; left == Some(*wanted));
    }
    Ok(())
}

/// The lines of a script before its threads.
const HEAD: &str = "heap 1 64 0 64 0 2\nnames 0 0 0 0\nlayout fields ref int\n";

/// Scripts in two parts, and what is written of the first bad line.
const REFUSED: [[&str; 3]; 18] = [
    ["", "", "line 1 count\n"],
    ["", "heap 256 65536 0 32 0 2\n", "line 1 range\n"],
    ["", "heap 0 32 0 32 0 2\n", "line 1 range\n"],
    ["", "heap 200 32 57 32 0 2\n", "line 1 range\n"],
    ["", "names 0 0 0 0\n", "line 1 order\n"],
    ["", "heap 1 64 0 64 0 2\nnames 0 0 0 65\n", "line 2 range\n"],
    [HEAD, "threads 17\n", "line 4 range\n"],
    [HEAD, "threads 1\nthreads 1\n", "line 5 late\n"],
    [HEAD, "threads 1\nnew 0 0\n", "line 5 order\n"],
    [
        HEAD,
        "threads 1\nturns 18446744073709551616\n",
        "line 5 number\n",
    ],
    [HEAD, "threads 1\nthread 0\nnew 0\n", "line 6 count\n"],
    [HEAD, "threads 1\nthread 0\nnew\t0 0\n", "line 6 word\n"],
    [HEAD, "threads 1\nthread 0\nnew 16 0\n", "line 6 range\n"],
    [HEAD, "threads 1\nthread 0\nnewx 0 0\n", "line 6 word\n"],
    [HEAD, "threads 1\nthread 0\nnew 0 1\n", "line 6 range\n"],
    [SCRIPT, "\0", "line 8 word\n"],
    [SCRIPT, "order\n", "line 8 count\n"],
    [SCRIPT, "thread 0\n", "line 8 late\n"],
];

/// Whether a script of so long a first line is refused so.
fn is_refused(alloc: Global, length: usize, told: &str) -> Result<bool, AllocError> {
    let line = repeated(alloc, "#", length)?;
    ends_with(alloc, "trace", ["", line.as_str()], 2, [told, ""])
}

#[test]
fn scripts_are_refused(rt: HostRuntime) -> Result<(), Fail> {
    for [before, behind, told] in &REFUSED {
        assert!(rt; ends_with(rt.alloc(), "trace", [before, behind], 2, [told, ""])?);
    }
    assert!(rt; is_refused(rt.alloc(), 1_048_576, "line 2 count\n")?);
    assert!(rt; is_refused(rt.alloc(), 1_048_577, "line 1 long\n")?);
    Ok(())
}

/// Orders of a thread of 15 turns, and how many turns a run in that order takes. Between its ends the
/// collector looks at the thread's state in one turn and at the epoch wanted in the next. It ends 3
/// turns behind the thread's end, and 4 where it stands between the two.
const ORDERS: [(&str, u32); 13] = [
    ("", 32),
    ("order r\n", 32),
    ("order r@mark\n", 32),
    ("order c\n", 34),
    ("order 0*15\n", 18),
    ("order 0 0*13 c*3\n", 22),
    ("order 0/1\n", 22),
    ("order 0/2\n", 20),
    ("order 0/3 0/1\n", 18),
    ("order 0@mark\n", 18),
    ("order 0@idle c@idle r@idle\n", 32),
    ("order r*3 0*12\n", 22),
    ("order c@mark\n", 100_032),
];

/// Whether a run in an order, of so many turns, ends with this number, and this text is written.
fn is_run(alloc: Global, order: &str, turns: u32, wanted: (u8, &str)) -> Result<bool, AllocError> {
    let script = format!(in alloc;
        "{HEAD}threads 1\nturns {turns}\nthread 0\nnew 0 0\nsame 0 0\n{order}"
    )?;
    ends(alloc, &["trace"], script.as_str(), (&[], &[]), wanted)
}

/// One thread, which makes an object: it goes in by two steps, and polls for its call; it looks at
/// the frame, claims it, takes its page, clears three words, bears the object and stores the local;
/// the next poll answers the second call; the page and the frame go home, and the state is stored.
#[test]
fn a_run_is_of_single_steps(rt: HostRuntime) -> Result<(), Fail> {
    let alloc = rt.alloc();
    for (order, least) in &ORDERS {
        let spent = is_run(alloc, order, least.saturating_sub(1), (3, "turns spent\n"))?;
        assert!(rt; spent && is_run(alloc, order, *least, (0, REPORT))?);
    }
    Ok(())
}

/// Calls of the source and of the sink that fail, the number, and what was written.
const FAULTS: [(&[u32], &[u32], u8, &str); 6] = [
    (&[1], &[], 4, ""),
    (&[2], &[], 4, ""),
    (&[12], &[], 4, ""),
    (&[], &[1], 5, ""),
    (&[], &[2], 5, "thread 0"),
    (
        &[],
        &[9],
        5,
        "thread 0\nok\nyes\ncalls 2\nepochs 0\nreleased 0\nqueued 0\nfinalized 0",
    ),
];

#[test]
fn faults_of_devices_are_answered(rt: HostRuntime) -> Result<(), Fail> {
    for (reads, writes, wanted, held) in &FAULTS {
        let faults = (*reads, *writes);
        assert!(rt; ends(rt.alloc(), &["trace"], SCRIPT, faults, (*wanted, held))?);
    }
    Ok(())
}

/// Words, the number, and what is written.
const FORMS: [(&[&str], u8, &str); 13] = [
    (&["trace"], 0, REPORT),
    (&["--", "trace"], 0, REPORT),
    (&["trace", "--"], 0, REPORT),
    (&["cms"], 0, CORE),
    (&["--", "cms"], 0, CORE),
    (&["cms", "trace"], 1, USAGE),
    (&[], 1, USAGE),
    (&["--"], 1, USAGE),
    (&["trace", "x"], 1, USAGE),
    (&["--help"], 1, USAGE),
    (&["gen", "0"], 1, USAGE),
    (&["gen", "201"], 1, USAGE),
    (&["--", "--", "trace"], 1, USAGE),
];

#[test]
fn words_are_judged(rt: HostRuntime) -> Result<(), Fail> {
    for (words, wanted, told) in &FORMS {
        assert!(rt; ends(rt.alloc(), words, SCRIPT, (&[], &[]), (*wanted, told))?);
    }
    Ok(())
}

/// What is written of a core with two objects, of which the first was no longer reachable.
const LOST: &str =
    "thread 0\nok\nok\nobject 0 condemned\nobject 1 kept\nsnapshot 2\ncondemned 1\nend\n";

/// Scripts of the core behind their head, the number, and what is written.
const CORES: [(&str, u8, &str); 8] = [
    (
        "thread 0\nnew 0 0\nnew 1 0\nset 0 0 1\nclear 1\nget 2 0 0\nset 0 0 3\norder 0*6 c 0*4\n",
        0,
        "thread 0\nok\nok\nok\nok\nref\nok\nobject 0 kept\nobject 1 kept\nsnapshot 2\ncondemned 0\nend\n",
    ),
    ("thread 0\nnew 0 0\nnew 0 0\norder 0*2 c\n", 0, LOST),
    ("thread 0\nnew 0 0\nnew 0 0\norder 0/2 c r*4\n", 0, LOST),
    (
        "turns 7\nthread 0\nnew 0 0\nnew 0 0\norder 0*2 c\n",
        0,
        LOST,
    ),
    (
        "turns 6\nthread 0\nnew 0 0\nnew 0 0\norder 0*2 c\n",
        3,
        "turns spent\n",
    ),
    ("thread 0\nnew 0 0\nput 0 1 7\n", 2, "line 7 word\n"),
    ("order c@mark\n", 2, "line 5 word\n"),
    ("order f\n", 2, "line 5 word\n"),
];

#[test]
fn cores_are_run(rt: HostRuntime) -> Result<(), Fail> {
    let head = "heap 1 64 0 64 0 2\nnames 0 0 0 0\nlayout fields ref int\nthreads 1\n";
    for (script, wanted, told) in &CORES {
        assert!(rt; ends_with(rt.alloc(), "cms", [head, script], *wanted, [told, ""])?);
    }
    Ok(())
}

#[test]
fn statuses_have_their_numbers(rt: HostRuntime) {
    let bad = Status::Script {
        line: 1,
        why: Why::Count,
    };
    let numbers = [
        (Status::Ok, 0),
        (Status::Usage, 1),
        (bad, 2),
        (Status::Spent, 3),
        (Status::ReadFault, 4),
        (Status::WriteFault, 5),
        (Status::Memory, 6),
    ];
    for (status, number) in numbers {
        assert!(rt; exit_of(Ok(status)) == ExitCode::from(number));
    }
}
