//! The calls of a device that fails some of them.
//!
//! Owned by the device; only `count` changes it, once in each call of the device. Between any two
//! calls it has counted those made and those that were faults (`after_call` and `after_fault` in
//! `specs/CallLog.antt`).

ghost use Rattle.std.specs.Prelude.{◌≡◌, ◌↔◌, IsTrue, IfOk, if◌then◌else◌};
ghost use Rattle.kn_io.specs.Counts.{NeverFalls};
ghost use Rattle.kn_io.specs.CallLog.{new_log, NextFails, after_call, after_fault};

use std::alloc::{AllocError, Global};
use std::marker::Model;

/// The calls of a device that fails some of them. A contract sees a `CallLog` of
/// `specs/CallLog.antt`.
#[derive(Drop)]
pub(crate) struct Calls {
    failing: Vec<u32>,
    made: u64,
    faults: u64,
}

impl Model for Calls {
    ghost use Rattle.kn_io.specs.CallLog.{CallLog};

    ghost Value = { CallLog };

    ghost view = { λ c. record { failing = c.failing.items; made = c.made; faults = c.faults } };
}

impl Calls {
    pub(crate) fn open(alloc: Global, failing: &[u32]) -> Result<Calls, AllocError>
        ensures { IfOk result (λ calls. calls ≡ new_log failing.now) }
    {
        Ok(Calls {
            failing: Vec::from_slice(alloc, failing)?,
            made: 0,
            faults: 0,
        })
    }

    /// Whether the next call is one of those that fail.
    pub(crate) fn next_fails(&self) -> bool
        ensures { IsTrue result ↔ NextFails self.now }
    {
        let number = self.made.saturating_add(1);
        for failing in &self.failing {
            if u64::from(*failing) == number {
                return true;
            }
        }
        false
    }

    /// Counts a call, and where it was a fault also that.
    pub(crate) fn count(&mut self, is_fault: bool)
        ensures log { self.new ≡ (if is_fault then after_fault self.old else after_call self.old) }
        ensures count { NeverFalls self.old.faults self.new.faults }
    {
        self.made = self.made.saturating_add(1);
        if is_fault {
            self.faults = self.faults.saturating_add(1);
        }
    }
}
