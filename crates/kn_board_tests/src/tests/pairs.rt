//! A stop of two threads, of which one is in the middle of a birth.
use super::collecting::{Script, Seen, are_seen};
use std::test::Fail;

/// Thread 1 raises the epoch wanted, thread 0 takes the page of a frame for its birth, the collector
/// stores the stop, and thread 1 goes out. Then the collector has five turns behind each one of thread 0.
const PAIR: Script = (
    "heap 1 64 0 64 0 2\nnames 0 0 0 0\nlayout fields ref int\nthreads 2\n",
    "thread 0\nnew 0 0\nsame 0 0\nthread 1\ngc\norder 1*4 0*6 c@stopa 1*2 c*5\n\
     order 0 c*5 0 c*5 0 c*5 0 c*5 0 c*5 0 c*5 0 c*5 0 c*5 0 c*5\n",
);

/// No turn of the collector counts thread 0 until its birth is answered, its page is home, and it is
/// out. Then it needs four turns to Mark. Behind the pause thread 0 goes in again, and ends.
#[test]
fn a_stop_waits_for_a_birth_and_its_page(rt: HostRuntime) -> Result<(), Fail> {
    let table: [(u32, Seen); 15] = [
        (4, ([0, 1, 0, 0, 0, 0], 0, true)),
        (10, ([0, 1, 0, 1, 0, 0], 0, false)),
        (12, ([0, 1, 0, 1, 0, 0], 0, false)),
        (13, ([9, 1, 0, 1, 0, 0], 0, false)),
        (20, ([9, 1, 0, 1, 0, 0], 0, false)),
        (38, ([9, 1, 0, 1, 0, 0], 0, false)),
        (39, ([9, 1, 0, 1, 0, 3], 1, false)),
        (56, ([9, 1, 0, 1, 0, 3], 1, false)),
        (57, ([9, 1, 0, 1, 0, 3], 1, true)),
        (68, ([9, 1, 0, 1, 0, 3], 1, true)),
        (69, ([9, 1, 0, 0, 0, 3], 1, true)),
        (71, ([9, 1, 0, 0, 0, 3], 1, true)),
        (72, ([9, 1, 4, 0, 0, 3], 1, true)),
        (73, ([10, 1, 4, 0, 0, 3], 1, true)),
        (1000, ([11, 1, 0, 2, 7, 7], 3, true)),
    ];
    assert!(rt; are_seen(rt.alloc(), PAIR, &table)?);
    Ok(())
}
