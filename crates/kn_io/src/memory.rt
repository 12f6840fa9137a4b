//! Devices in memory of which some calls fail.
//!
//! A source owns its bytes, and a sink the bytes that it took; only their calls change them. Between
//! any two calls a sink has reserved its whole room, so that no write of it wants memory, and holds
//! no more than that (the `invariant` of `MemSink`).

ghost use Rattle.std.specs.Prelude.{◌≡◌, ◌↔◌, ◌⊎◌, ◌<◌, ◌≤◌, [], ◌++◌, length, take, Some, IfOk, OnOk, OnErr, IsErr};
ghost use Rattle.kn_io.specs.Counts.{NeverFalls, Rose};
ghost use Rattle.kn_io.specs.Told.{Gives};
ghost use Rattle.kn_io.specs.CallLog.{new_log, NextFails, after_call, after_fault};
ghost use Rattle.kn_io.specs.States.{given_count, without_first, filled, taken_count, HasNoRoomFor};

use crate::calls::Calls;
use crate::devices::{Failed, Sink, Source};
use crate::safe::SafeSource;
use std::alloc::{AllocError, Global};
use std::marker::Model;

/// Bytes in memory, of which some calls fail. A contract sees a `FailingSupply` of
/// `specs/States.antt`.
#[derive(Drop)]
pub struct MemSource {
    supply: SafeSource,
    calls: Calls,
}

impl Model for MemSource {
    ghost use Rattle.kn_io.specs.States.{FailingSupply};

    ghost Value = { FailingSupply };

    ghost view = { λ s. record { supply = s.supply; calls = s.calls } };
}

impl MemSource {
    /// A source of these bytes, which gives at most `piece` of them in a call and fails the calls
    /// with these numbers, counted from 1.
    pub fn open(
        alloc: Global,
        bytes: &[u8],
        piece: u32,
        failing: &[u32],
    ) -> Result<MemSource, AllocError>
        requires { 0 < piece }
        ensures supply { IfOk result (λ source.
            source.supply ≡ record { left = bytes.now; piece = piece }) }
        ensures calls { IfOk result (λ source. source.calls ≡ new_log failing.now) }
    {
        Ok(MemSource {
            supply: SafeSource::open(alloc, bytes, piece)?,
            calls: Calls::open(alloc, failing)?,
        })
    }
}

impl Source for MemSource {
    ghost left = { λ s. Some s.supply.left };

    ghost faults = { λ s. s.calls.faults };

    /// Gives as many bytes as `piece`, the buffer and the bytes left allow. A call that fails gives
    /// none, and leaves the buffer as it was.
    fn read(&mut self, buf: &mut [u8]) -> Result<usize, Failed>
        requires { 0 < length buf.old }
        ensures fails { IsErr result ↔ NextFails self.old.calls }
        ensures given { IfOk result (λ n. n ≡ given_count self.old.supply (length buf.old)) }
        ensures state { IfOk result (λ n. self.new ≡ record {
          supply = without_first self.old.supply n;
          calls = after_call self.old.calls;
        }) }
        ensures buffer { IfOk result (λ n. buf.new ≡ filled self.old.supply n buf.old) }
        ensures failed_state { OnErr result
            (self.new ≡ record self.old { calls = after_fault self.old.calls }) }
        ensures failed_buffer { OnErr result (buf.new ≡ buf.old) }

        // What the trait says.
        ensures gives { IfOk result (λ n.
            Gives (Some self.old.supply.left) (Some self.new.supply.left) (take n buf.new)) }
        ensures end { IfOk result (λ n. (n ≡ 0) ↔ (self.old.supply.left ≡ [])) }
        ensures ok_without_fault { OnOk result
            (self.new.calls.faults ≡ self.old.calls.faults) }
        ensures failed_only_where_rose { OnErr result
            (Rose self.old.calls.faults self.new.calls.faults) }
        ensures count { NeverFalls self.old.calls.faults self.new.calls.faults }
    {
        let fails = self.calls.next_fails();
        self.calls.count(fails);
        if fails {
            return Err(Failed);
        }
        Ok(self.supply.give(buf))
    }
}

/// Room in memory, which fails some calls. A contract sees a `FailingStore` of
/// `specs/States.antt`.
#[derive(Drop)]
pub struct MemSink {
    bytes: Vec<u8>,
    room: u32,
    piece: u32,
    calls: Calls,
}

impl Model for MemSink {
    ghost use Rattle.std.specs.Prelude.{◌<◌, ◌≤◌, vec_len, vec_capacity};
    ghost use Rattle.kn_io.specs.States.{FailingStore};

    ghost Value = { FailingStore };

    ghost view = { λ s. record {
      held = s.bytes.items;
      room = s.room;
      piece = s.piece;
      calls = s.calls;
    } };

    ghost invariant = { λ s. record {
      within : vec_len s.bytes ≤ s.room;
      reserved : s.room ≤ vec_capacity s.bytes;
      some : 0 < s.piece;
    } };
}

impl MemSink {
    /// A sink that holds at most `room` bytes, takes at most `piece` of them in a call, and fails
    /// the calls of `write` and of `flush` with these numbers, counted together from 1.
    pub fn open(
        alloc: Global,
        room: u32,
        piece: u32,
        failing: &[u32],
    ) -> Result<MemSink, AllocError>
        requires { 0 < piece }
        ensures { IfOk result (λ sink. sink
            ≡ record { held = []; room = room; piece = piece; calls = new_log failing.now }) }
    {
        Ok(MemSink {
            bytes: Vec::with_capacity(alloc, room as usize)?,
            room,
            piece,
            calls: Calls::open(alloc, failing)?,
        })
    }

    /// The bytes that went there.
    pub fn held(&self) -> &[u8]
        ensures bytes { result.now ≡ self.now.held }
        ensures within { length result.now ≤ self.now.room }
    {
        &self.bytes
    }
}

impl Sink for MemSink {
    ghost held = { λ s. Some s.held };

    ghost faults = { λ s. s.calls.faults };

    ghost is_flushed = { λ _. Unit {0} };

    /// Takes as many bytes as `piece` and the room left allow. A full sink fails to take a piece
    /// that is not empty. A call that fails takes none.
    fn write(&mut self, bytes: &[u8]) -> Result<usize, Failed>
        ensures fails { IsErr result
            ↔ (NextFails self.old.calls ⊎ HasNoRoomFor self.old bytes.now) }
        ensures taken { IfOk result (λ n. n ≡ taken_count self.old (length bytes.now)) }
        ensures state { IfOk result (λ n. self.new ≡ record self.old {
          held = self.old.held ++ take n bytes.now;
          calls = after_call self.old.calls;
        }) }
        ensures failed_state { OnErr result
            (self.new ≡ record self.old { calls = after_fault self.old.calls }) }

        // What the trait says.
        ensures some { IfOk result (λ n. 0 < length bytes.now → 0 < n) }
        ensures ok_without_fault { OnOk result
            (self.new.calls.faults ≡ self.old.calls.faults) }
        ensures failed_only_where_rose { OnErr result
            (Rose self.old.calls.faults self.new.calls.faults) }
        ensures count { NeverFalls self.old.calls.faults self.new.calls.faults }
    {
        let left = self.room as usize - self.bytes.len();
        let is_fault = self.calls.next_fails() || (left == 0 && !bytes.is_empty());
        self.calls.count(is_fault);
        if is_fault {
            return Err(Failed);
        }
        let n = (self.piece as usize).min(bytes.len()).min(left);
        self.bytes.extend_from_slice(&bytes[..n]).unwrap();
        Ok(n)
    }

    /// Moves no byte.
    fn flush(&mut self) -> Result<(), Failed>
        ensures fails { IsErr result ↔ NextFails self.old.calls }
        ensures state { OnOk result
            (self.new ≡ record self.old { calls = after_call self.old.calls }) }
        ensures failed_state { OnErr result
            (self.new ≡ record self.old { calls = after_fault self.old.calls }) }

        // What the trait says.
        ensures ok_without_fault { OnOk result
            (self.new.calls.faults ≡ self.old.calls.faults) }
        ensures failed_only_where_rose { OnErr result
            (Rose self.old.calls.faults self.new.calls.faults) }
        ensures count { NeverFalls self.old.calls.faults self.new.calls.faults }
    {
        let is_fault = self.calls.next_fails();
        self.calls.count(is_fault);
        if is_fault { Err(Failed) } else { Ok(()) }
    }
}
