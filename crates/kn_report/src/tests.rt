use crate::{Log, report};
use kn_base::Caller;
use kn_graph::{Call, Entry, Event, Reply};
use std::test::Fail;

const TEXT: &str =
    "thread 0\nok\nnone\ncalls 2\nepochs 1\nreleased 2\nqueued 1\nfinalized 1\nend\n";

fn entry(by: u8, what: Event) -> Entry {
    Entry {
        by: Caller(by),
        epoch: 1,
        what,
    }
}

#[test]
fn logs_are_printed(rt: HostRuntime) -> Result<(), Fail> {
    let mut thread = Log::new(rt.alloc());
    thread.push(entry(0, Event::Call(Call::Clear(0), Reply::Ok, 0)))?;
    thread.push(entry(0, Event::Released(4)))?;
    thread.push(entry(0, Event::Call(Call::Retain(0), Reply::Nothing, 0)))?;
    let mut collector = Log::new(rt.alloc());
    collector.push(entry(1, Event::Pause(1)))?;
    collector.push(entry(1, Event::Released(7)))?;
    collector.push(entry(1, Event::Queued(1)))?;
    collector.push(entry(1, Event::Done(1)))?;
    let mut finalizer = Log::new(rt.alloc());
    finalizer.push(entry(2, Event::Finalized(1, 0, 5)))?;
    let logs = vec![in rt.alloc(); thread, collector, finalizer]?;
    let text = report(rt.alloc(), &logs)?;
    assert!(rt; text.as_str() == TEXT);
    Ok(())
}
