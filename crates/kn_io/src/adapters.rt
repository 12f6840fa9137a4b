//! Readers and writers of std as devices.
//!
//! Each owns its reader or writer and the count of its errors; only the calls of the device change
//! them. Between any two calls the count has not fallen, and it rose by one in each call that failed
//! (`counted_on` in `specs/Counts.antt`).

ghost use Rattle.std.specs.Prelude.{◌≡◌, ◌<◌, ◌≤◌, length, None, IfOk, OnOk, OnErr};
ghost use Rattle.std.specs.Io.KnownBytes.{Keeps, ReadConsumes, WriteAppends};
ghost use Rattle.kn_io.specs.StdDevices.{reader_of, read_errors, writer_of, write_errors};
ghost use Rattle.kn_io.specs.Counts.{counted_on, NeverFalls, Rose};

use crate::devices::{Failed, Sink, Source};
use std::io::{Read, Write};

/// A reader of `std::io`, as a source that tells no content. A contract sees the reader and the
/// count of its errors (`specs/StdDevices.antt`).
#[derive(Drop)]
pub struct StdSource<R> {
    inner: R,
    faults: u64,
}

impl<R> StdSource<R> {
    /// A source that reads from `inner`. No error has come.
    pub fn new(inner: R) -> StdSource<R>
        ensures reader { reader_of result ≡ inner }
        ensures errors { read_errors result ≡ 0 }
    {
        StdSource { inner, faults: 0 }
    }
}

impl<R: Read> Source for StdSource<R> {
    ghost left = { λ _. None };

    ghost faults = { λ s. read_errors s };

    /// Reads once. Each error is a fault, also that of a call that a signal interrupted.
    fn read(&mut self, buf: &mut [u8]) -> Result<usize, Failed>
        requires { 0 < length buf.old }
        ensures within { IfOk result (λ n. n ≤ length buf.old) }
        ensures bytes { ReadConsumes (R.remaining (reader_of self.old))
            (R.remaining (reader_of self.new)) result buf.new }
        ensures ok_without_fault { OnOk result (read_errors self.new ≡ read_errors self.old) }
        ensures failed_errors { OnErr result
            (read_errors self.new ≡ counted_on (read_errors self.old) 1) }

        // What the trait says.
        ensures failed_only_where_rose { OnErr result
            (Rose (read_errors self.old) (read_errors self.new)) }
        ensures count { NeverFalls (read_errors self.old) (read_errors self.new) }
    {
        match self.inner.read(buf) {
            Ok(n) => Ok(n),
            Err(_) => {
                self.faults = self.faults.saturating_add(1);
                Err(Failed)
            }
        }
    }
}

/// A writer of `std::io`, as a sink that tells no content. A contract sees the writer and the count
/// of its errors (`specs/StdDevices.antt`).
#[derive(Drop)]
pub struct StdSink<W> {
    inner: W,
    faults: u64,
}

impl<W> StdSink<W> {
    /// A sink that writes to `inner`. No error has come.
    pub fn new(inner: W) -> StdSink<W>
        ensures writer { writer_of result ≡ inner }
        ensures errors { write_errors result ≡ 0 }
    {
        StdSink { inner, faults: 0 }
    }
}

impl<W: Write> Sink for StdSink<W> {
    ghost held = { λ _. None };

    ghost faults = { λ s. write_errors s };

    ghost is_flushed = { λ _. Unit {0} };

    /// Writes once. Each error is a fault, also that of a call that a signal interrupted, and so is
    /// a writer that takes no byte of a piece that is not empty.
    fn write(&mut self, bytes: &[u8]) -> Result<usize, Failed>
        ensures within { IfOk result (λ n. n ≤ length bytes.now) }
        ensures some { IfOk result (λ n. 0 < length bytes.now → 0 < n) }
        ensures bytes { WriteAppends (W.contents (writer_of self.old))
            (W.contents (writer_of self.new)) result bytes.now }
        ensures ok_without_fault { OnOk result (write_errors self.new ≡ write_errors self.old) }
        ensures failed_errors { OnErr result
            (write_errors self.new ≡ counted_on (write_errors self.old) 1) }

        // What the trait says.
        ensures failed_only_where_rose { OnErr result
            (Rose (write_errors self.old) (write_errors self.new)) }
        ensures count { NeverFalls (write_errors self.old) (write_errors self.new) }
    {
        match self.inner.write(bytes) {
            Ok(n) if n > 0 || bytes.is_empty() => Ok(n),
            _ => {
                self.faults = self.faults.saturating_add(1);
                Err(Failed)
            }
        }
    }

    /// Flushes the writer. Each error is a fault.
    fn flush(&mut self) -> Result<(), Failed>
        ensures bytes { Keeps (W.contents (writer_of self.old)) (W.contents (writer_of self.new)) }
        ensures ok_without_fault { OnOk result (write_errors self.new ≡ write_errors self.old) }
        ensures failed_errors { OnErr result
            (write_errors self.new ≡ counted_on (write_errors self.old) 1) }

        // What the trait says.
        ensures failed_only_where_rose { OnErr result
            (Rose (write_errors self.old) (write_errors self.new)) }
        ensures count { NeverFalls (write_errors self.old) (write_errors self.new) }
    {
        match self.inner.flush() {
            Ok(()) => Ok(()),
            Err(_) => {
                self.faults = self.faults.saturating_add(1);
                Err(Failed)
            }
        }
    }
}
