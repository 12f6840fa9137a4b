use crate::{
    Failed, MemSink, MemSource, ReadEnd, SafeSink, SafeSource, Sink, Source, StdSink, StdSource,
    read_all, write_all,
};
use std::alloc::{AllocError, Global};
use std::io;
use std::io::{Read, Write};
use std::test::Fail;

const TWENTY: &[u8] = b"0123456789abcdefghij";

// Gives four bytes, then an error, then four bytes, then the end.
#[derive(Drop)]
struct FailsOnce {
    calls: u8,
}

impl Read for FailsOnce {
    fn read(&mut self, buf: &mut [u8]) -> io::Result<usize> {
        self.calls = self.calls.saturating_add(1);
        if self.calls == 2 {
            return Err(io::ErrorKind::Other.into());
        }
        if self.calls > 3 || buf.len() < 4 {
            return Ok(0);
        }
        buf[0] = b'0' + self.calls;
        Ok(4)
    }
}

// Takes three bytes, and then none without an error. It can't be flushed.
#[derive(Drop)]
struct TakesThree {
    left: usize,
}

impl Write for TakesThree {
    fn write(&mut self, buf: &[u8]) -> io::Result<usize> {
        let n = buf.len().min(self.left);
        self.left -= n;
        Ok(n)
    }

    fn flush(&mut self) -> io::Result<()> {
        Err(io::ErrorKind::Other.into())
    }
}

// Whether the next call of the source gives this piece, or fails where there is none.
fn gives(source: &mut MemSource, piece: Option<&[u8]>) -> bool {
    let mut buf = [0; 16];
    match (source.read(&mut buf), piece) {
        (Ok(n), Some(piece)) => &buf[..n] == piece,
        (Err(Failed), None) => true,
        _ => false,
    }
}

#[test]
fn a_source_fails_the_calls_told(rt: HostRuntime) -> Result<(), Fail> {
    let mut source = MemSource::open(rt.alloc(), TWENTY, 8, &[2])?;
    let pieces: [Option<&[u8]>; 5] = [
        Some(b"01234567"),
        None,
        Some(b"89abcdef"),
        Some(b"ghij"),
        Some(b""),
    ];
    for piece in pieces {
        assert!(rt; gives(&mut source, piece));
    }
    Ok(())
}

// Whether a sink with this room, which takes pieces of 8, holds so many bytes behind a write of twenty,
// and whether that fails where it is to.
fn takes_twenty(alloc: Global, row: (u32, u32, usize, bool)) -> Result<bool, AllocError> {
    let (room, failing, held, fails) = row;
    let mut sink = MemSink::open(alloc, room, 8, &[failing])?;
    let failed = write_all(&mut sink, TWENTY).is_err();
    let bytes = sink.held();
    Ok(failed == fails && bytes.len() == held && TWENTY.starts_with(bytes))
}

// Whether a sink with a room of 4, whose first call fails, goes on.
fn goes_on(alloc: Global) -> Result<bool, AllocError> {
    let mut sink = MemSink::open(alloc, 4, 8, &[1])?;
    let calls: [(&[u8], Result<usize, Failed>); 4] = [
        (b"ab", Err(Failed)),
        (b"cdefg", Ok(4)),
        (b"", Ok(0)),
        (b"h", Err(Failed)),
    ];
    let mut is_so = true;
    for (piece, answer) in calls {
        is_so = sink.write(piece) == answer && is_so;
    }
    Ok(is_so && sink.flush().is_ok() && sink.held() == b"cdef".as_slice())
}

#[test]
fn a_sink_fails_the_calls_told(rt: HostRuntime) -> Result<(), Fail> {
    // Three calls of `write`, and one of `flush`.
    let rows = [
        (20, 9, 20, false),
        (20, 2, 8, true),
        (20, 4, 20, true),
        (20, 5, 20, false),
        (10, 9, 10, true),
        (0, 9, 0, true),
    ];
    for row in rows {
        assert!(rt; takes_twenty(rt.alloc(), row)?);
    }
    assert!(rt; goes_on(rt.alloc())?);
    Ok(())
}

// Whether a read of five bytes, which are three lines, in pieces of 2, ends at this line, or gives
// all bytes where there is none.
fn ends_at(alloc: Global, limit: u16, line: Option<u32>) -> Result<bool, AllocError> {
    let mut source = MemSource::open(alloc, b"a\nb\nc", 2, &[9])?;
    Ok(match read_all(alloc, &mut source, u32::from(limit)) {
        Ok(text) => line.is_none() && text.as_slice() == b"a\nb\nc".as_slice(),
        Err(ReadEnd::TooLong { line: last }) => line == Some(last),
        Err(_) => false,
    })
}

#[test]
fn a_read_to_the_end_keeps_to_its_limit(rt: HostRuntime) -> Result<(), Fail> {
    let rows = [
        (0, Some(1)),
        (1, Some(1)),
        (2, Some(2)),
        (3, Some(2)),
        (4, Some(3)),
        (5, None),
        (6, None),
        (65_535, None),
    ];
    for (limit, line) in rows {
        assert!(rt; ends_at(rt.alloc(), limit, line)?);
    }
    Ok(())
}

// Whether a read to the end gives this text, or finds that the source failed where there is none.
fn comes<S: Source>(alloc: Global, source: &mut S, text: Option<&[u8]>) -> bool {
    match (read_all(alloc, source, 20), text) {
        (Ok(all), Some(text)) => all.as_slice() == text,
        (Err(ReadEnd::Failed), None) => true,
        _ => false,
    }
}

// Whether a source in memory that failed goes on.
fn memory_comes(alloc: Global) -> Result<bool, AllocError> {
    let mut source = MemSource::open(alloc, TWENTY, 8, &[2])?;
    let failed = comes(alloc, &mut source, None);
    Ok(failed && comes(alloc, &mut source, Some(b"89abcdefghij")))
}

// Whether a source of std that failed goes on.
fn reader_comes(alloc: Global) -> bool {
    let mut source = StdSource::new(FailsOnce { calls: 0 });
    let failed = comes(alloc, &mut source, None);
    failed && comes(alloc, &mut source, Some(b"3\0\0\0"))
}

#[test]
fn sources_are_read_to_the_end(rt: HostRuntime) -> Result<(), Fail> {
    let alloc = rt.alloc();
    let mut safe = SafeSource::open(alloc, TWENTY, 7)?;
    let all = comes(alloc, &mut safe, Some(TWENTY))
        && comes(alloc, &mut StdSource::new(TWENTY), Some(TWENTY));
    assert!(rt; all && memory_comes(alloc)? && reader_comes(alloc));
    Ok(())
}

// Whether a sink that counts its bytes, and one of std, take twenty.
fn twenty_are_taken(alloc: Global) -> bool {
    let mut safe = SafeSink::open(7);
    let mut written = Vec::new(alloc);
    let ok = write_all(&mut safe, TWENTY).is_ok()
        && write_all(&mut StdSink::new(&mut written), TWENTY).is_ok();
    ok && safe.taken() == 20 && written.as_slice() == TWENTY
}

// Whether a sink of std fails where its writer takes none, and can't be flushed.
fn three_are_taken() -> bool {
    let mut three = StdSink::new(TakesThree { left: 3 });
    three.flush() == Err(Failed)
        && three.write(b"ab") == Ok(2)
        && write_all(&mut three, b"cd") == Err(Failed)
        && three.write(b"") == Ok(0)
}

#[test]
fn sinks_are_written_to(rt: HostRuntime) -> Result<(), Fail> {
    assert!(rt; twenty_are_taken(rt.alloc()) && three_are_taken());
    assert!(rt; format!(in rt.alloc(); "{Failed}")?.as_str() == "the device failed");
    Ok(())
}
