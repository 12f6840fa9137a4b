//! Who lets calls begin.

/// Whether a call may begin. A gate is asked before each poll for the call that would begin next.
/// `told` is what it may say of a call: its thread, its number among the thread's calls, and the
/// answer.
pub trait Gate {
    ghost use Rattle.std.specs.Prelude.{ℕ, Bool};

    ghost told: { Self → ℕ → ℕ → Bool → Type 0 };

    /// Whether the call of this number may begin, of this thread.
    fn pass(&self, thread: u8, call: u32) -> bool
        ensures { told self.now thread call result };
}

/// The gate that is always open.
#[derive(Clone, Copy)]
pub struct OpenGate;

impl Gate for OpenGate {
    ghost use Rattle.kn_mutator.specs.Turns.{lets_all};

    ghost told = { λ gate. lets_all };

    #[inline(always)]
    fn pass(&self, _thread: u8, _call: u32) -> bool {
        true
    }
}
