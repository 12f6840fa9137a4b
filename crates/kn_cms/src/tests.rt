use crate::{Core, read_core_script};
use kn_lines::Actor;
use std::test::Fail;

const HEAD: &str =
    "heap 1 64 0 64 0 2\nnames 0 0 0 0\nlayout fields ref int\nthreads 1\nthread 0\nnew 0 0\n";

/// Gives an actor so many turns.
fn give(core: &mut Core, who: Actor, turns: u32) {
    for _ in 0..turns {
        if core.has_actor(who) {
            let _ = core.turn(who);
        }
    }
}

/// The number of objects that are condemned.
fn condemned(core: &Core) -> u32 {
    let mut count = 0;
    for k in 0..core.objects() {
        if core.condemned(k) {
            count += 1;
        }
    }
    count
}

#[test]
fn what_a_store_overwrites_is_kept(rt: HostRuntime) -> Result<(), Fail> {
    let calls = "new 1 0\nset 0 0 1\nclear 1\nget 2 0 0\nset 0 0 3\n";
    let text = [HEAD, calls].concat(rt.alloc())?;
    let script = read_core_script(rt.alloc(), text.as_bytes())?;
    let mut core = Core::open(rt.alloc(), &script)?;
    give(&mut core, Actor::Thread(0), 6);
    give(&mut core, Actor::Collector, 1);
    give(&mut core, Actor::Thread(0), 4);
    give(&mut core, Actor::Collector, 100);
    assert!(rt; core.finished() && core.snapshot() == Some(2));
    assert!(rt; core.history().len() == 7 && condemned(&core) == 0);
    Ok(())
}

#[test]
fn what_was_unreachable_at_the_snapshot_is_condemned(rt: HostRuntime) -> Result<(), Fail> {
    let text = [HEAD, "new 0 0\n"].concat(rt.alloc())?;
    let script = read_core_script(rt.alloc(), text.as_bytes())?;
    let mut core = Core::open(rt.alloc(), &script)?;
    give(&mut core, Actor::Thread(0), 2);
    give(&mut core, Actor::Collector, 100);
    assert!(rt; core.finished() && core.snapshot() == Some(2));
    assert!(rt; condemned(&core) == 1 && core.objects() == 2 && core.condemned(0));
    Ok(())
}
