//! Devices that never fail.
//!
//! A source owns its bytes and the place up to which they were given; only `give` moves it. Between
//! any two calls that place is within the bytes, and a call gives or takes at least one byte where
//! there is one (the `invariant` of each).

ghost use Rattle.std.specs.Prelude.{◌≡◌, ◌↔◌, ◌<◌, [], length, take, min, Some, None, IfOk, IsOk};
ghost use Rattle.kn_io.specs.Told.{Gives};
ghost use Rattle.kn_io.specs.States.{given_count, without_first, filled, with_taken};

use crate::devices::{Failed, Sink, Source};
use std::alloc::{AllocError, Global};
use std::marker::Model;

/// Bytes in memory that never fail to come. A contract sees a `Supply` of `specs/States.antt`.
#[derive(Drop)]
pub struct SafeSource {
    bytes: Vec<u8>,
    given: usize,
    piece: u32,
}

impl Model for SafeSource {
    ghost use Rattle.std.specs.Prelude.{◌<◌, ◌≤◌, vec_len, drop};
    ghost use Rattle.kn_io.specs.States.{Supply};

    ghost Value = { Supply };

    ghost view = { λ s. record { left = drop s.given s.bytes.items; piece = s.piece } };

    ghost invariant = { λ s. (s.given ≤ vec_len s.bytes) × (0 < s.piece) };
}

impl SafeSource {
    /// A source of these bytes, which gives at most `piece` of them in a call.
    pub fn open(alloc: Global, bytes: &[u8], piece: u32) -> Result<SafeSource, AllocError>
        requires { 0 < piece }
        ensures { IfOk result (λ source. source ≡ record { left = bytes.now; piece = piece }) }
    {
        Ok(SafeSource {
            bytes: Vec::from_slice(alloc, bytes)?,
            given: 0,
            piece,
        })
    }

    /// Gives the next bytes, and answers how many.
    pub(crate) fn give(&mut self, buf: &mut [u8]) -> usize
        ensures count { result ≡ given_count self.old (length buf.old) }
        ensures left { self.new ≡ without_first self.old result }
        ensures filled { buf.new ≡ filled self.old result buf.old }
        ensures piece { 0 < self.old.piece }
    {
        let left = self.bytes.len() - self.given;
        let n = (self.piece as usize).min(buf.len()).min(left);
        buf[..n].copy_from_slice(&self.bytes[self.given..self.given + n]);
        self.given += n;
        n
    }
}

impl Source for SafeSource {
    ghost left = { λ s. Some s.left };

    ghost faults = { λ _. 0 };

    /// Gives as many bytes as `piece`, the buffer and the bytes left allow, and never fails.
    fn read(&mut self, buf: &mut [u8]) -> Result<usize, Failed>
        requires { 0 < length buf.old }
        ensures given { result ≡ Ok (given_count self.old (length buf.old)) }
        ensures state { IfOk result (λ n. self.new ≡ without_first self.old n) }
        ensures buffer { IfOk result (λ n. buf.new ≡ filled self.old n buf.old) }

        // What the trait says.
        ensures gives { IfOk result (λ n.
            Gives (Some self.old.left) (Some self.new.left) (take n buf.new)) }
        ensures end { IfOk result (λ n. (n ≡ 0) ↔ (self.old.left ≡ [])) }
    {
        Ok(self.give(buf))
    }
}

/// A sink that never fails, and that only counts its bytes. A contract sees a `Tally` of
/// `specs/States.antt`.
#[derive(Drop)]
pub struct SafeSink {
    piece: u32,
    taken: u64,
}

impl Model for SafeSink {
    ghost use Rattle.std.specs.Prelude.{◌<◌};
    ghost use Rattle.kn_io.specs.States.{Tally};

    ghost Value = { Tally };

    ghost view = { λ s. record { piece = s.piece; taken = s.taken } };

    ghost invariant = { λ s. 0 < s.piece };
}

impl SafeSink {
    /// A sink that takes at most `piece` bytes in a call.
    pub fn open(piece: u32) -> SafeSink
        requires { 0 < piece }
        ensures { result ≡ record { piece = piece; taken = 0 } }
    {
        SafeSink { piece, taken: 0 }
    }

    /// How many bytes were taken, up to the last value of the count.
    pub fn taken(&self) -> u64
        ensures { result ≡ self.now.taken }
    {
        self.taken
    }
}

impl Sink for SafeSink {
    ghost held = { λ _. None };

    ghost faults = { λ _. 0 };

    ghost is_flushed = { λ _. Unit {0} };

    /// Takes as many bytes as `piece` allows, and never fails.
    fn write(&mut self, bytes: &[u8]) -> Result<usize, Failed>
        ensures taken { result ≡ Ok (min self.old.piece (length bytes.now)) }
        ensures state { IfOk result (λ n. self.new ≡ with_taken self.old n) }

        // What the trait says.
        ensures some { IfOk result (λ n. 0 < length bytes.now → 0 < n) }
    {
        let n = (self.piece as usize).min(bytes.len());
        self.taken = self.taken.saturating_add(n as u64);
        Ok(n)
    }

    /// Does nothing, and never fails.
    fn flush(&mut self) -> Result<(), Failed>
        ensures ok { IsOk result }
        ensures state { self.new ≡ self.old }
    {
        Ok(())
    }
}
