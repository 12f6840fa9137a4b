ghost use Rattle.std.specs.Prelude.{◌≡◌, ◌↔◌, ℕ, ◌<◌, ◌≤◌, List, [], length, take, Option, IfSome, IfOk, OnOk, OnErr};
ghost use Rattle.kn_io.specs.Counts.{NeverFalls, Rose};
ghost use Rattle.kn_io.specs.Told.{Gives, Appends};

use thiserror::Error;

/// The answer of a call that met a fault of the device.
#[derive(Clone, Copy, Debug, PartialEq, Eq, Error)]
#[error("the device failed")]
pub struct Failed;

/// Where bytes come from.
///
/// `left` are the bytes that are left, where the source tells them, and `faults` counts its faults.
pub trait Source {
    ghost left: { Self → Option (List ℕ) };

    ghost faults: { Self → ℕ };

    /// Puts the next bytes at the front of `buf`, and answers how many. 0 is the end. Nothing is
    /// said of the rest of `buf`.
    fn read(&mut self, buf: &mut [u8]) -> Result<usize, Failed>
        requires { 0 < length buf.old }
        ensures within { IfOk result (λ n. n ≤ length buf.old) }
        ensures gives { IfOk result (λ n. Gives (left self.old) (left self.new) (take n buf.new)) }
        ensures end { IfOk result (λ n. IfSome (left self.old) (λ bytes. (n ≡ 0) ↔ (bytes ≡ []))) }

        ensures failed_gives_none { OnErr result (left self.new ≡ left self.old) }
        ensures ok_without_fault { OnOk result (faults self.new ≡ faults self.old) }
        ensures failed_only_where_rose { OnErr result (Rose (faults self.old) (faults self.new)) }
        ensures count { NeverFalls (faults self.old) (faults self.new) };
}

/// Where bytes go.
///
/// `held` are the bytes that went there, where the sink tells them, and `faults` counts its faults.
/// `is_flushed` is what a flush brings about: all that was taken is where it goes. A sink that does
/// not tell it says that it always holds, but whoever writes to any sink can learn it from `flush`
/// alone.
pub trait Sink {
    ghost held: { Self → Option (List ℕ) };

    ghost faults: { Self → ℕ };

    ghost is_flushed: { Self → Type 0 };

    /// Takes the first bytes of `bytes`, and answers how many. To take none of a piece that is not
    /// empty is a fault.
    fn write(&mut self, bytes: &[u8]) -> Result<usize, Failed>
        ensures within { IfOk result (λ n. n ≤ length bytes.now) }
        ensures some { IfOk result (λ n. 0 < length bytes.now → 0 < n) }
        ensures appends { IfOk result (λ n.
            Appends (held self.old) (held self.new) (take n bytes.now)) }

        ensures failed_takes_none { OnErr result (held self.new ≡ held self.old) }
        ensures ok_without_fault { OnOk result (faults self.new ≡ faults self.old) }
        ensures failed_only_where_rose { OnErr result (Rose (faults self.old) (faults self.new)) }
        ensures count { NeverFalls (faults self.old) (faults self.new) };

    /// Brings what was taken to where it goes.
    fn flush(&mut self) -> Result<(), Failed>
        ensures held { held self.new ≡ held self.old }
        ensures flushed { OnOk result (is_flushed self.new) }
        ensures ok_without_fault { OnOk result (faults self.new ≡ faults self.old) }
        ensures failed_only_where_rose { OnErr result (Rose (faults self.old) (faults self.new)) }
        ensures count { NeverFalls (faults self.old) (faults self.new) };
}
